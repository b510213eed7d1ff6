//! Some properties are to have values, and what follows from them is to change.

ghost use Rattle.std.specs.Prelude.{◌≡◌, ◌↔◌, ◌+◌, ◌<◌, ◌^◌, ◌++◌, ◌∷◌, [], length, IfOk, IsTrue, OnOk};
ghost use Rattle.std.specs.Option.{option_map};
ghost use Rattle.object_tree.specs.Objects.{change_life, written};
ghost use Rattle.object_tree.specs.Seen.{seen};
ghost use Rattle.binding_graph.specs.declared.place.Place.{Place};
ghost use Rattle.binding_graph.specs.Places.{Distinct, In};
ghost use Rattle.prop_bindings.specs.Values.{values_in};
ghost use Rattle.binding_graph.specs.Bindings.{AreApart, binding_at};
ghost use Rattle.prop_bindings.specs.Changes.{in_order, DifferInValues, AreChanged};
ghost use Rattle.prop_bindings.specs.Plans.{after};
ghost use Rattle.binding_graph.specs.code.Graph.{AreKeyed, bindings_in};
ghost use Rattle.binding_graph.specs.code.Numbering.{places_of};
ghost use Rattle.binding_graph.specs.code.Orders.{AreBound, pass};
ghost use Rattle.prop_bindings.specs.code.Parts.{AddsChanged, GivesOnly, IsSoundBySome, StaySound, ahead, value_ahead};

use crate::evaluation::evaluate_all;
use crate::plans::{ChangedPlaces, Planned, value_near};
use basic_types::Value;
use binding_graph::{Installed, Numbered, Place};
use indexmap::IndexMap;
use object_tree::Tree;
use std::alloc::{AllocError, Global};

/// Different properties are to have these values, and then each of their followers, in their order, its expression's value,
/// each of which is one evaluation more. The changed properties are those of the first that change, in their order, then
/// the followers in the order in which their bindings were installed. Its error is that memory was refused.
pub fn plan(
    alloc: Global,
    installed: &Installed,
    targets: &[Place],
    followers: &[Place],
    tree: &Tree,
    given: IndexMap<(usize, usize), Value>,
    before: usize,
) -> Result<Planned, AllocError>
    requires keyed { AreKeyed installed.now }
    requires apart { AreApart (bindings_in installed.now) }
    requires different { Distinct targets.now }
    requires given { GivesOnly targets.now given tree.now }
    requires sound { IsSoundBySome (ahead given tree.now) (bindings_in installed.now) }
    requires bound { AreBound (binding_at (bindings_in installed.now)) followers.now }
    requires distinct { Distinct followers.now }
    requires others { (q : Place) → In q targets.now → In q followers.now → ⊥ }
    requires few { before + length followers.now < 2 ^ 64 }
    ensures values { IfOk result (λ plan. (q : Place) → values_in (after plan tree.now) q
        ≡ pass (binding_at (bindings_in installed.now)) followers.now
        (values_in (ahead given tree.now)) q) }
    ensures changed { IfOk result (λ plan. AreChanged tree.now (after plan tree.now)
        (in_order targets.now (bindings_in installed.now)) plan.changed) }
    ensures objects { IfOk result (λ plan. DifferInValues tree.now (after plan tree.now)) }
    ensures sound { IfOk result (λ plan. StaySound (ahead given tree.now) (after plan tree.now)
        (bindings_in installed.now)) }
    ensures counted { IfOk result (λ plan. plan.evaluated ≡ before + length followers.now) }
{
    let mut count = before;
    let mut values = given;
    values.reserve(followers.len())?;
    let mut others = evaluate_all(alloc, installed, followers, tree, &mut values, &mut count)?;
    others.sort_unstable_by_key(|each| each.number);
    let changed = changed_among(alloc, targets, &others, tree, &values)?;
    Ok(Planned {
        values,
        changed,
        evaluated: count,
    })
}

/// Those of the first properties, and then of the others, in their order, that no longer read as they did once these have
/// their values, which mostly stand in the same order. Its error is that memory was refused.
fn changed_among(
    alloc: Global,
    targets: &[Place],
    others: &[Numbered],
    tree: &Tree,
    values: &IndexMap<(usize, usize), Value>,
) -> Result<ChangedPlaces, AllocError>
    ensures { IfOk result (λ changed. AreChanged tree.now (ahead values.now tree.now)
        (targets.now ++ places_of others.now) changed) }
{
    let mut changed = ChangedPlaces::new(alloc);
    let mut likely: usize = 0;
    for target in targets {
        add_changed(target, tree, values, likely, &mut changed)?;
        likely = likely.saturating_add(1);
    }
    for each in others {
        add_changed(&each.place, tree, values, likely, &mut changed)?;
        likely = likely.saturating_add(1);
    }
    Ok(changed)
}

/// Adds the property to those that changed, unless it still reads as it did once these have their values. Its own likely
/// stands at this place among them.
#[inline(always)]
fn add_changed(
    place: &Place,
    tree: &Tree,
    values: &IndexMap<(usize, usize), Value>,
    likely: usize,
    changed: &mut ChangedPlaces,
) -> Result<(), AllocError>
    ensures { OnOk result (AddsChanged tree.now (ahead values.now tree.now) place.now
        changed.old changed.new) }
{
    if stays(place, tree, values, likely) {
        return Ok(());
    }
    changed.push(*place)?;
    Ok(())
}

/// The property, if it no longer reads as it did once it has this value. It takes no memory.
#[inline(always)]
pub fn changed_alone(alloc: Global, place: &Place, tree: &Tree, value: &Value) -> ChangedPlaces
    ensures { AreChanged tree.now
        (change_life place.now.object (written place.now.property value.now) tree.now) (place.now ∷ []) result }
{
    if stays_alone(place, tree, value) {
        return ChangedPlaces::new(alloc);
    }
    ChangedPlaces::one(alloc, *place)
}

/// Whether the property still reads as it did once it has this value.
#[inline(always)]
fn stays_alone(place: &Place, tree: &Tree, value: &Value) -> bool
    ensures { IsTrue result
        ↔ (option_map (seen tree.now) (option_map (λ own. value.now) (values_in tree.now place.now))
        ≡ option_map (seen tree.now) (values_in tree.now place.now)) }
{
    match tree.value(place.object, place.property) {
        Some(own) => tree.is_same(value, own),
        None => true,
    }
}

/// Whether the property still reads as it did once these have their values. Its own likely stands at this place among them.
#[inline(always)]
fn stays(
    place: &Place,
    tree: &Tree,
    values: &IndexMap<(usize, usize), Value>,
    likely: usize,
) -> bool
    ensures { IsTrue result ↔ (option_map (seen tree.now) (value_ahead values.now tree.now place.now)
        ≡ option_map (seen tree.now) (values_in tree.now place.now)) }
{
    let Some(own) = tree.value(place.object, place.property) else {
        return true;
    };
    match value_near(values, likely, place) {
        Some(new) => tree.is_same(new, own),
        None => true,
    }
}
