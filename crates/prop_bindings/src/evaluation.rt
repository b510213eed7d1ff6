//! Evaluation of bindings in an order, ahead of any change.

ghost use Rattle.std.specs.Prelude.{◌≡◌, ◌+◌, ◌<◌, ◌^◌, length, IfOk, OnOk};
ghost use Rattle.expressions.specs.Evaluation.{Evaluates};
ghost use Rattle.binding_graph.specs.declared.place.Place.{Place};
ghost use Rattle.prop_bindings.specs.Values.{values_in};
ghost use Rattle.binding_graph.specs.Bindings.{AreApart, binding_at, value_of};
ghost use Rattle.prop_bindings.specs.Changes.{DifferInValues};
ghost use Rattle.binding_graph.specs.code.Graph.{AreKeyed, bindings_in, slot_of};
ghost use Rattle.binding_graph.specs.code.Numbering.{AreNumbered};
ghost use Rattle.binding_graph.specs.code.Orders.{AreBound, pass};
ghost use Rattle.prop_bindings.specs.code.Parts.{IsSoundBySome, StaySound, ahead, value_ahead};

use crate::ahead::Ahead;
use basic_types::Value;
use binding_graph::{Binding, Installed, Numbered, Place};
use expressions::{EvalFault, eval};
use indexmap::IndexMap;
use object_tree::Tree;
use std::alloc::{AllocError, Global};

/// Each of these bound properties is to have its expression's value, in this order. It answers the slots of their bindings.
/// Its error is that memory was refused.
pub fn evaluate_all(
    alloc: Global,
    installed: &Installed,
    order: &[Place],
    tree: &Tree,
    values: &mut IndexMap<(usize, usize), Value>,
    count: &mut usize,
) -> Result<Vec<Numbered>, AllocError>
    requires keyed { AreKeyed installed.now }
    requires apart { AreApart (bindings_in installed.now) }
    requires sound { IsSoundBySome (ahead values.old tree.now) (bindings_in installed.now) }
    requires bound { AreBound (binding_at (bindings_in installed.now)) order.now }
    requires few { count.old + length order.now < 2 ^ 64 }
    ensures values { OnOk result ((q : Place) → values_in (ahead values.new tree.now) q
        ≡ pass (binding_at (bindings_in installed.now)) order.now
        (values_in (ahead values.old tree.now)) q) }
    ensures objects { OnOk result (DifferInValues (ahead values.old tree.now) (ahead values.new tree.now)) }
    ensures sound { OnOk result (StaySound (ahead values.old tree.now) (ahead values.new tree.now)
        (bindings_in installed.now)) }
    ensures counted { OnOk result (count.new ≡ count.old + length order.now) }
    ensures numbered { IfOk result (λ found.
        AreNumbered (slot_of installed.now) order.now found.items) }
{
    let mut found = Vec::with_capacity(alloc, order.len())?;
    let mut likely: usize = 0;
    for place in order {
        let Some((number, reader)) = installed.find_near(likely, place) else {
            unreachable!()
        };
        likely = number.saturating_add(1);
        let value = match value_of(alloc, reader.binding(), tree, values, count) {
            Ok(value) => value,
            Err(EvalFault::BadType) => unreachable!(),
            Err(EvalFault::Memory) => return Err(AllocError),
        };
        values.insert(place.key(), value)?;
        let place = *place;
        found.push(Numbered { number, place })?;
    }
    Ok(found)
}

/// The value of a binding's expression over these objects, where these properties are to have these values; `BadType` where
/// it has none. It is one evaluation more.
pub fn value_of(
    alloc: Global,
    binding: &Binding,
    objects: &Tree,
    values: &IndexMap<(usize, usize), Value>,
    count: &mut usize,
) -> Result<Value, EvalFault>
    requires { count.old + 1 < 2 ^ 64 }
    ensures value { Evaluates (value_of binding.now (value_ahead values.now objects.now)) result }
    ensures counted { count.new ≡ count.old + 1 }
{
    *count += 1;
    let ahead = Ahead {
        objects,
        values,
        sources: binding.sources.as_slice(),
    };
    eval(alloc, binding.formula.expression(), &ahead)
}
