//! How values are written down.

ghost use Rattle.std.specs.Prelude.{◌≡◌, IfOk};
ghost use Rattle.machine_state.specs.Objects.{shown, shown_reference, all_shown};

use basic_types::{ObjectId, Value};
use object_tree::Tree;
use std::alloc::{AllocError, Global};
use trace_entries::{Shown, ShownValues};

/// A value as it is written down: a reference, as it reads, by the object's name, or as null.
#[inline(always)]
pub fn show(objects: &Tree, value: &Value) -> Result<Shown, AllocError>
    ensures { IfOk result (λ text. text ≡ shown objects.now value.now) }
{
    match value {
        Value::Int(number) => Ok(Shown::Int(*number)),
        Value::Bool(truth) => Ok(Shown::Bool(*truth)),
        Value::Text(text) => {
            let copy = text.copy()?;
            Ok(Shown::Text(copy))
        }
        Value::Ref(reference) => show_reference(objects, objects.seen_reference(*reference)),
    }
}

/// The name of the object that a reference refers to, or null.
fn show_reference(objects: &Tree, reference: Option<ObjectId>) -> Result<Shown, AllocError>
    ensures { IfOk result (λ text. text ≡ shown_reference objects.now reference) }
{
    let Some(object) = reference else {
        return Ok(Shown::Null);
    };
    match objects.name(object) {
        Some(name) => {
            let copy = name.copy()?;
            Ok(Shown::Object(copy))
        }
        None => Ok(Shown::Null),
    }
}

/// Values as they are written down.
#[inline(always)]
pub fn show_all(alloc: Global, objects: &Tree, values: &[Value]) -> Result<ShownValues, AllocError>
    ensures { IfOk result (λ texts. texts ≡ all_shown objects.now values.now) }
{
    let mut texts = ShownValues::new(alloc);
    for value in values {
        let text = show(objects, value)?;
        texts.push(text)?;
    }
    Ok(texts)
}
