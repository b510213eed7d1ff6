ghost use Rattle.std.specs.Prelude.{◌≡◌, ◌++◌, ◌↔◌, IsTrue, IfOk, OnOk, List};
ghost use Rattle.basic_types.specs.Normal.{pointer_type};
ghost use Rattle.basic_types.specs.Spelling.{const_text, star_text, text_of_type, text_of_types};
ghost use Rattle.basic_types.specs.Types.{value_type, BeginsWith};

use crate::name::Name;
use std::alloc::{AllocError, Global};

/// A parameter's type in its normal form: `T`, `T*` or `const T*`.
pub struct QType {
    /// The name T.
    pub name: Name,
    /// Whether `const` is in front, as it is of pointers only.
    pub constant: bool,
    /// Whether it is a pointer.
    pub pointer: bool,
}

impl Drop for QType {
    fn drop(self) {
        let QType {
            name: _,
            constant: _,
            pointer: _,
        } = self;
    }
}

impl QType {
    /// The value type of this name.
    pub fn value(name: Name) -> QType
        ensures { result ≡ value_type name }
    {
        QType {
            name,
            constant: false,
            pointer: false,
        }
    }

    /// The type of pointers to what has this name: `const T*` where `constant` says so, else `T*`.
    pub fn pointer_to(name: Name, constant: bool) -> QType
        ensures { result ≡ pointer_type name constant }
    {
        QType {
            name,
            constant,
            pointer: true,
        }
    }

    /// The same type, which shares the name.
    pub fn copy(&self) -> Result<QType, AllocError>
        ensures { IfOk result (λ copy. copy ≡ self.now) }
    {
        let name = self.name.copy()?;
        Ok(QType {
            name,
            constant: self.constant,
            pointer: self.pointer,
        })
    }

    /// The type's text: `T`, `T*` or `const T*`.
    pub fn text(&self, alloc: Global) -> Result<Vec<u8>, AllocError>
        ensures { IfOk result (λ text. text.items ≡ text_of_type self.now) }
    {
        let mut text = Vec::new(alloc);
        self.push_text(&mut text)?;
        Ok(text)
    }

    /// Adds the type's text at the end.
    pub(crate) fn push_text(&self, text: &mut Vec<u8>) -> Result<(), AllocError>
        ensures { OnOk result (text.new.items ≡ text.old.items ++ text_of_type self.now) }
    {
        text.extend_from_slice(const_text(self.constant))?;
        text.extend_from_slice(self.name.bytes())?;
        text.extend_from_slice(star_text(self.pointer))?;
        Ok(())
    }

    /// Whether both types are the same; `T*` and `const T*` are two types.
    pub fn is_same(&self, other: &QType) -> bool
        ensures { IsTrue result ↔ (self.now ≡ other.now) }
    {
        self.constant == other.constant
            && self.pointer == other.pointer
            && self.name.is_same(&other.name)
    }
}

/// What comes before a constant type's name.
fn const_text(constant: bool) -> &'static [u8]
    ensures { result.now ≡ const_text constant }
{
    if constant { b"const " } else { b"" }
}

/// What follows a pointer's name.
fn star_text(pointer: bool) -> &'static [u8]
    ensures { result.now ≡ star_text pointer }
{
    if pointer { b"*" } else { b"" }
}

/// Adds the types' texts at the end, with `,` between them.
pub(crate) fn push_types(types: &[QType], text: &mut Vec<u8>) -> Result<(), AllocError>
    ensures { OnOk result (text.new.items ≡ text.old.items ++ text_of_types types.now) }
{
    let Some((first, others)) = types.split_first() else {
        return Ok(());
    };
    first.push_text(text)?;
    let mut left = others;
    while let Some((kind, more)) = left.split_first() {
        text.push(b',')?;
        kind.push_text(text)?;
        left = more;
    }
    Ok(())
}

/// Whether both lists hold the same types in the same order.
#[inline(always)]
pub fn types_are_same(left: &[QType], right: &[QType]) -> bool
    ensures { IsTrue result ↔ (left.now ≡ right.now) }
{
    left.len() == right.len() && types_begin_with(left, right)
}

/// Whether the second list is a prefix of the first.
#[inline(always)]
pub fn types_begin_with(types: &[QType], front: &[QType]) -> bool
    ensures { IsTrue result ↔ BeginsWith types.now front.now }
{
    let (mut rest, mut left) = (types, front);
    while let Some((kind, more)) = left.split_first() {
        match rest.split_first() {
            Some((first, after)) if first.is_same(kind) => rest = after,
            _ => return false,
        }
        left = more;
    }
    true
}
