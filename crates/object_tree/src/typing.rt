//! Whether values are of the types that are declared.

ghost use Rattle.std.specs.Prelude.{◌↔◌, All, IsTrue};
ghost use Rattle.meta_model.specs.Typed.{TellsType};
ghost use Rattle.object_tree.specs.Creating.{BeginsAs};
ghost use Rattle.object_tree.specs.Seen.{seen};
ghost use Rattle.object_tree.specs.Typed.{ReadsAs, ReadAs};

use crate::objects::Objects;
use crate::seen::seen_reference;
use basic_types::{Shared, Value};
use meta_model::{Meta, MetaProperty, ValueType};

/// Whether each property of a new object of the class `new` has at first a value of its type.
pub fn begin_well(
    meta: &Meta,
    objects: &Objects,
    new: usize,
    properties: &[Shared<MetaProperty>],
) -> bool
    ensures { IsTrue result ↔
        All (BeginsAs meta.now objects.now new) properties.now }
{
    properties
        .iter()
        .all(|property| begins_well(meta, objects, new, property.get()))
}

/// Whether the property of a new object of the class `new` has at first a value of its type.
fn begins_well(meta: &Meta, objects: &Objects, new: usize, property: &MetaProperty) -> bool
    ensures { IsTrue result ↔ BeginsAs meta.now objects.now new property.now }
{
    match &property.initial {
        Value::Ref(Some(object)) => {
            let class = objects.class_with(*object, new);
            reads_as(meta, objects, &property.initial, class, property.kind)
        }
        _ => reads_as(meta, objects, &property.initial, None, property.kind),
    }
}

/// Whether there are as many values as types, each, as it reads, of its type.
pub fn have_types(meta: &Meta, objects: &Objects, values: &[Value], types: &[ValueType]) -> bool
    ensures { IsTrue result ↔ ReadAs meta.now objects.now values.now types.now }
{
    let (mut rest, mut left) = (values, types);
    while let Some((kind, more)) = left.split_first() {
        match rest.split_first() {
            Some((value, after)) if has_type(meta, objects, value, *kind) => rest = after,
            _ => return false,
        }
        left = more;
    }
    rest.is_empty()
}

/// Whether the value, as it reads, is of the type.
pub fn has_type(meta: &Meta, objects: &Objects, value: &Value, kind: ValueType) -> bool
    ensures { IsTrue result ↔ ReadsAs meta.now objects.now value.now kind }
{
    match value {
        Value::Ref(Some(object)) => {
            let class = objects.class(*object);
            reads_as(meta, objects, value, class, kind)
        }
        _ => reads_as(meta, objects, value, None, kind),
    }
}

/// Whether the value, as it reads, is of the type. Where it then refers to an object, `class` is that object's class.
fn reads_as(
    meta: &Meta,
    objects: &Objects,
    value: &Value,
    class: Option<usize>,
    kind: ValueType,
) -> bool
    ensures { TellsType meta.now (seen objects.now value.now) class kind result }
{
    match value {
        Value::Ref(reference) => {
            let read = Value::Ref(seen_reference(objects, *reference));
            meta.has_type(&read, class, kind)
        }
        _ => meta.has_type(value, class, kind),
    }
}
