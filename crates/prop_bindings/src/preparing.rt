//! Whether a binding may be installed.

ghost use Rattle.std.specs.Prelude.{◌≡◌, ◌↔◌, ◌+◌, ◌<◌, ◌^◌, IsTrue, OnOk, Some};
ghost use Rattle.std.specs.List.{AllZip};
ghost use Rattle.expressions.specs.Evaluation.{Evaluates};
ghost use Rattle.prop_bindings.specs.Fits.{FitsAt, InOneLoop};
ghost use Rattle.prop_bindings.specs.Values.{values_in};
ghost use Rattle.binding_graph.specs.Bindings.{value_of};
ghost use Rattle.prop_bindings.specs.Calls.{IsOf, CoversBinding};
ghost use Rattle.prop_bindings.specs.code.Parts.{Prepares};

use crate::evaluation::value_of;
use crate::plans::BindFault;
use basic_types::{ObjectId, Value};
use binding_graph::{Binding, Place};
use expressions::EvalFault;
use indexmap::IndexMap;
use meta_model::{Meta, MetaSite};
use object_tree::Tree;
use sqlite_items::Items;
use std::alloc::Global;

/// A binding, with the value that its expression has.
#[derive(Drop)]
pub struct PreparedBinding {
    pub binding: Binding,
    pub value: Value,
}

/// The binding of this site, which is evaluated once, or the first of these that holds: `BadSource`, `OtherLoop`, `BadType`.
/// `Memory` comes only where a growth of memory was refused.
pub fn prepare(
    alloc: Global,
    meta: &Meta,
    tree: &Tree,
    number: usize,
    target: ObjectId,
    sources: &[ObjectId],
    count: &mut usize,
) -> Result<PreparedBinding, BindFault>
    requires { count.old ≡ 0 }
    ensures value { Prepares meta.now number target sources.now tree.now result }
    ensures counted { OnOk result (count.new ≡ 1) }
{
    let Some(site) = meta.sites().get(number) else {
        return Err(BindFault::BadSource);
    };
    if !covers(meta, tree, site, target, sources) {
        return Err(BindFault::BadSource);
    }
    if !in_one_loop(tree, target, sources) {
        return Err(BindFault::OtherLoop);
    }
    let binding = Binding {
        site: number,
        target: Place {
            object: target,
            property: site.property,
        },
        sources: Items::from_slice(alloc, sources)?,
        formula: site.formula.copy()?,
    };
    let value = present_value(alloc, &binding, tree, count)?;
    if !fits(meta, tree, &binding.target, &value) {
        return Err(BindFault::BadType);
    }
    Ok(PreparedBinding { binding, value })
}

/// The value of a binding's expression over the present values; `BadType` where it has none. It is one evaluation more.
fn present_value(
    alloc: Global,
    binding: &Binding,
    tree: &Tree,
    count: &mut usize,
) -> Result<Value, EvalFault>
    requires { count.old + 1 < 2 ^ 64 }
    ensures value { Evaluates (value_of binding.now (values_in tree.now)) result }
    ensures counted { count.new ≡ count.old + 1 }
{
    let none = IndexMap::new(alloc);
    value_of(alloc, binding, tree, &none, count)
}

/// Whether the value is of the type of a living object's property.
#[inline(always)]
pub fn fits(meta: &Meta, tree: &Tree, place: &Place, value: &Value) -> bool
    ensures { IsTrue result ↔ FitsAt meta.now tree.now place.now value.now }
{
    let Some(life) = tree.life(place.object) else {
        return false;
    };
    let Some(class) = meta.object(life.class) else {
        return false;
    };
    match class.property(place.property) {
        Some(property) => tree.has_type(meta, value, property.kind),
        None => false,
    }
}

/// Whether a property has this value already.
pub fn has_value(tree: &Tree, place: &Place, value: &Value) -> bool
    ensures { IsTrue result ↔ (values_in tree.now place.now ≡ Some value.now) }
{
    match tree.value(place.object, place.property) {
        Some(now) => now.is_same(value),
        None => false,
    }
}

/// Whether the site covers the target and the sources.
fn covers(meta: &Meta, tree: &Tree, site: &MetaSite, target: ObjectId, sources: &[ObjectId]) -> bool
    ensures { IsTrue result ↔ CoversBinding meta.now tree.now site.now target sources.now }
{
    is_of(meta, tree, target, site.class) && are_of(meta, tree, sources, site.formals.as_slice())
}

/// Whether there are as many objects as classes, each of its class or of one below it.
fn are_of(meta: &Meta, tree: &Tree, objects: &[ObjectId], classes: &[usize]) -> bool
    ensures { IsTrue result ↔ AllZip (IsOf meta.now tree.now) objects.now classes.now }
{
    let (mut rest, mut left) = (objects, classes);
    while let Some((class, more)) = left.split_first() {
        match rest.split_first() {
            Some((object, after)) if is_of(meta, tree, *object, *class) => rest = after,
            _ => return false,
        }
        left = more;
    }
    rest.is_empty()
}

/// Whether the living object is of the class or of one below it.
fn is_of(meta: &Meta, tree: &Tree, object: ObjectId, class: usize) -> bool
    ensures { IsTrue result ↔ IsOf meta.now tree.now object class }
{
    match tree.life(object) {
        Some(life) => meta.inherits(life.class, class),
        None => false,
    }
}

/// Whether the sources live in the target's event loop.
fn in_one_loop(tree: &Tree, target: ObjectId, sources: &[ObjectId]) -> bool
    ensures { IsTrue result ↔ InOneLoop tree.now target sources.now }
{
    let home = tree.home(target);
    sources.iter().all(|source| tree.home(*source) == home)
}
