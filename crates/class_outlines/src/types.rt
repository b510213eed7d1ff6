//! Declared types, their classes replaced by numbers.

ghost use Rattle.std.specs.Prelude.{◌≡◌, ◌↔◌, ℕ, List, IsTrue, IfOk};
ghost use Rattle.std.specs.List.{AllZip};
ghost use Rattle.class_outlines.specs.DeclaredKinds.{IsKindIn};
ghost use Rattle.class_outlines.specs.code.ReadTypes.{IsReadAs};
ghost use Rattle.name_indexes.specs.LookUps.{LooksUp};
ghost use Rattle.basic_types.specs.Types.{value_type};

use crate::class_table::ClassTable;
use basic_types::{BOOL, INT, QSTRING, QType};
use meta_model::ValueType;
use sqlite_items::Items;
use std::alloc::{AllocError, Global};

/// What the type stands for, or `None` where there is no such type.
pub fn kind_of(outlines: &ClassTable, declared: &QType) -> Option<ValueType>
    ensures { LooksUp (IsKindIn outlines.now declared.now) result }
{
    if declared.pointer {
        match outlines.place_of(&declared.name) {
            Some(class) => Some(ValueType::Reference(class, declared.constant)),
            None => None,
        }
    } else if is_value_type(declared, INT) {
        Some(ValueType::Int)
    } else if is_value_type(declared, BOOL) {
        Some(ValueType::Bool)
    } else if is_value_type(declared, QSTRING) {
        Some(ValueType::Text)
    } else {
        None
    }
}

/// Whether the type is the value type of this name.
fn is_value_type(declared: &QType, name: &[u8]) -> bool
    ensures { IsTrue result ↔ (declared.now ≡ value_type name.now) }
{
    !declared.pointer && !declared.constant && declared.name.bytes() == name
}

/// What the type is read as: what it stands for, and `int` where there is no such type.
pub fn read_type(outlines: &ClassTable, declared: &QType) -> ValueType
    ensures { IsReadAs outlines.now declared.now result }
{
    match kind_of(outlines, declared) {
        Some(kind) => kind,
        None => ValueType::Int,
    }
}

/// What the types are read as, in their order.
pub fn read_types(
    alloc: Global,
    outlines: &ClassTable,
    declared: &[QType],
) -> Result<Items<ValueType>, AllocError>
    ensures { IfOk result (λ types. AllZip (IsReadAs outlines.now) declared.now types) }
{
    let mut types = Items::from_vec(Vec::with_capacity(alloc, declared.len())?);
    for one in declared {
        let kind = read_type(outlines, one);
        types.push(kind)?;
    }
    Ok(types)
}
