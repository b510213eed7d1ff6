//! Whether the effects that a closure keeps to are those that a program declares.

ghost use Rattle.std.specs.Prelude.{◌≡◌, ◌↔◌, IsTrue, slice_get, Some};
ghost use Rattle.std.specs.List.{AllZip};
ghost use Rattle.native_slots.specs.Effects.{types_of};
ghost use Rattle.native_slots.specs.Fitting.{IsPropertyAs, IsSignalAs};
ghost use Rattle.native_slots.specs.Misfits.{TellsDifference};

use crate::effects::{Effects, PlainProperty, PlainSignal};
use crate::misfit::Difference;
use crate::plain_type::PlainType;
use meta_model::{MetaEffects, MetaMethod, MetaObject, ValueType};

/// The first list in which the effects aren't those declared of a native, which is this method of this class; each list has
/// its order. `None` where all are.
pub fn difference(
    class: &MetaObject,
    method: &MetaMethod,
    declared: &MetaEffects,
    kept: &Effects,
) -> Option<Difference>
    ensures { TellsDifference class.now method.now declared.now kept.now result }
{
    if !are_value_types(method.types.as_slice(), kept.parameters.as_slice()) {
        Some(Difference::Parameters)
    } else if !are_properties(class, declared.reads.as_slice(), kept.reads.as_slice()) {
        Some(Difference::Reads)
    } else if !are_signals(class, declared.emits.as_slice(), kept.emits.as_slice()) {
        Some(Difference::Emits)
    } else if !are_properties(class, declared.sets.as_slice(), kept.sets.as_slice()) {
        Some(Difference::Sets)
    } else {
        None
    }
}

/// Whether both lists hold the same types in the same order.
fn are_value_types(value_types: &[ValueType], types: &[PlainType]) -> bool
    ensures { IsTrue result ↔ (value_types.now ≡ types_of types.now) }
{
    match (value_types.split_first(), types.split_first()) {
        (None, None) => true,
        (Some((kind, more)), Some((plain, others))) => {
            *kind == plain.kind() && are_value_types(more, others)
        }
        _ => false,
    }
}

/// Whether the class's properties of these numbers have these names and types.
fn are_properties(class: &MetaObject, numbers: &[usize], properties: &[PlainProperty]) -> bool
    ensures { IsTrue result ↔ AllZip (IsPropertyAs class.now) numbers.now properties.now }
{
    match (numbers.split_first(), properties.split_first()) {
        (None, None) => true,
        (Some((number, more)), Some((property, others))) => {
            is_property(class, *number, property) && are_properties(class, more, others)
        }
        _ => false,
    }
}

/// Whether the class's property of this number has this name and type.
fn is_property(class: &MetaObject, number: usize, property: &PlainProperty) -> bool
    ensures { IsTrue result ↔ IsPropertyAs class.now number property.now }
{
    match class.property(number) {
        Some(found) => { found.name.is_same(&property.name) && found.kind == property.kind.kind() }
        None => false,
    }
}

/// Whether the class's methods of these numbers have these names and parameters of these types.
fn are_signals(class: &MetaObject, numbers: &[usize], signals: &[PlainSignal]) -> bool
    ensures { IsTrue result ↔ AllZip (IsSignalAs class.now) numbers.now signals.now }
{
    match (numbers.split_first(), signals.split_first()) {
        (None, None) => true,
        (Some((number, more)), Some((signal, others))) => {
            is_signal(class, *number, signal) && are_signals(class, more, others)
        }
        _ => false,
    }
}

/// Whether the class's method of this number has this name and parameters of these types.
fn is_signal(class: &MetaObject, number: usize, signal: &PlainSignal) -> bool
    ensures { IsTrue result ↔ IsSignalAs class.now number signal.now }
{
    match class.method(number) {
        Some(found) => {
            found.sig.name.is_same(&signal.name)
                && are_value_types(found.types.as_slice(), signal.types.as_slice())
        }
        None => false,
    }
}
