//! What values read as: a reference to a dead object is null.

ghost use Rattle.std.specs.Prelude.{◌≡◌, ◌↔◌, IsTrue, slice_get};
ghost use Rattle.object_tree.specs.Seen.{seen, seen_object, seen_reference};

use crate::objects::Objects;
use basic_types::{ObjectId, Value};

/// A value as it reads, which takes no memory.
pub fn seen(objects: &Objects, value: Value) -> Value
    ensures { result ≡ seen objects.now value }
{
    match value {
        Value::Ref(reference) => Value::Ref(seen_reference(objects, reference)),
        other => other,
    }
}

/// Whether both values read alike.
pub fn is_same(objects: &Objects, a: &Value, b: &Value) -> bool
    ensures { IsTrue result ↔ (seen objects.now a.now ≡ seen objects.now b.now) }
{
    match (a, b) {
        (Value::Ref(a), Value::Ref(b)) => {
            seen_reference(objects, *a) == seen_reference(objects, *b)
        }
        _ => a.is_same(b),
    }
}

/// What a reference refers to as it reads.
pub fn seen_reference(objects: &Objects, reference: Option<ObjectId>) -> Option<ObjectId>
    ensures { result ≡ seen_reference objects.now reference }
{
    match reference {
        Some(object) => seen_object(objects, object),
        None => None,
    }
}

/// What a reference to this object refers to: nothing once it is dead.
fn seen_object(objects: &Objects, object: ObjectId) -> Option<ObjectId>
    ensures { result ≡ seen_object (slice_get objects.now object) object }
{
    if objects.is_dead(object) {
        None
    } else {
        Some(object)
    }
}
