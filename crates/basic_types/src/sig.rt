ghost use Rattle.std.specs.Prelude.{◌≡◌, ◌↔◌, IsTrue, IfOk};
ghost use Rattle.basic_types.specs.Laws.{FitsItself, FitsAlong};
ghost use Rattle.basic_types.specs.Spelling.{text_of_sig};
ghost use Rattle.basic_types.specs.Types.{Fits};

use crate::name::Name;
use crate::parameter_types::ParameterTypes;
use crate::qtype::{QType, push_types, types_are_same, types_begin_with};
use sqlite_items::Items;
use std::alloc::{AllocError, Global};

/// A signature in its normal form: a method's name and its parameters' types. Copies share both.
pub struct Sig {
    pub name: Name,
    pub types: ParameterTypes,
}

impl Drop for Sig {
    fn drop(self) {
        let Sig { name: _, types: _ } = self;
    }
}

impl Sig {
    /// The signature of this name and these types. The error is that memory was refused.
    pub fn new(alloc: Global, name: Name, types: Items<QType>) -> Result<Sig, AllocError>
        ensures { IfOk result (λ sig. sig ≡ record { name = name; types = types }) }
    {
        let types = ParameterTypes::new(alloc, types)?;
        Ok(Sig { name, types })
    }

    /// The same signature, which takes no memory. The error is that there are more copies than can be counted.
    pub fn copy(&self) -> Result<Sig, AllocError>
        ensures { IfOk result (λ copy. copy ≡ self.now) }
    {
        let name = self.name.copy()?;
        let types = self.types.copy()?;
        Ok(Sig { name, types })
    }

    /// The signature's text: `f(const Cell*,int)`. It has no blank but the one behind `const`.
    pub fn text(&self, alloc: Global) -> Result<Vec<u8>, AllocError>
        ensures { IfOk result (λ text. text.items ≡ text_of_sig self.now) }
    {
        let mut text = Vec::from_slice(alloc, self.name.bytes())?;
        text.push(b'(')?;
        push_types(self.types.as_slice(), &mut text)?;
        text.push(b')')?;
        Ok(text)
    }

    /// Whether both signatures have one name and the same types.
    #[inline(always)]
    pub fn is_same(&self, other: &Sig) -> bool
        ensures { IsTrue result ↔ (self.now ≡ other.now) }
    {
        self.name.is_same(&other.name)
            && types_are_same(self.types.as_slice(), other.types.as_slice())
    }
}

/// Whether the slot can be connected to the signal: its types are the signal's first ones.
pub fn fits(signal: &Sig, slot: &Sig) -> bool
    ensures { IsTrue result ↔ Fits signal.now slot.now }
{
    types_begin_with(signal.types.as_slice(), slot.types.as_slice())
}

/// A signature fits itself, and what fits a signature that fits another one fits that one too.
pub fn fits_in_order()
    ensures itself { FitsItself }
    ensures along { FitsAlong }
{}
