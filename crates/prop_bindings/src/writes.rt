//! Writes of properties, one or several at once, planned.

ghost use Rattle.std.specs.Prelude.{◌≡◌, ◌↔◌, ◌∷◌, [], IfOk, IsTrue};
ghost use Rattle.prop_bindings.specs.Values.{values_in};
ghost use Rattle.prop_bindings.specs.Calls.{AllFit};
ghost use Rattle.prop_bindings.specs.Changes.{one};
ghost use Rattle.binding_graph.specs.code.Graph.{IsGraph, bindings_of};
ghost use Rattle.prop_bindings.specs.code.Parts.{AreGiven, HaveAhead, MayGiveSome, MayWriteOne, PlansGiven, PlansOne, ahead};

use crate::ahead::value_ahead;
use crate::changes::plan;
use crate::plans::{Assignment, Planned};
use crate::preparing::{fits, has_value};
use basic_types::Value;
use binding_graph::{Graph, Place, followers};
use indexmap::IndexMap;
use meta_model::Meta;
use object_tree::Tree;
use std::alloc::{AllocError, Global};

/// What writes give: their properties, each once, in the order in which they are written first, and of each the value that
/// is written last.
#[derive(Drop)]
pub struct GivenValues {
    pub targets: Vec<Place>,
    pub values: IndexMap<(usize, usize), Value>,
}

/// Whether each value is of its property's type.
pub fn all_fit(meta: &Meta, tree: &Tree, writes: &[Assignment]) -> bool
    ensures { IsTrue result ↔ AllFit meta.now tree.now writes.now }
{
    for write in writes {
        if !fits(meta, tree, &write.place, &write.value) {
            return false;
        }
    }
    true
}

/// The value that one write gives. Its error is that memory was refused.
pub fn give_one(
    alloc: Global,
    place: &Place,
    value: Value,
) -> Result<IndexMap<(usize, usize), Value>, AllocError>
    ensures { IfOk result (AreGiven (one place.now value) (place.now ∷ [])) }
{
    let mut values = IndexMap::with_capacity(alloc, 1)?;
    values.insert(place.key(), value)?;
    Ok(values)
}

/// Plans to give a property a value of its type, and what follows from it without its own binding. Its error is that memory
/// was refused.
pub fn plan_one(
    alloc: Global,
    graph: &Graph,
    tree: &Tree,
    place: &Place,
    value: Value,
) -> Result<Planned, AllocError>
    requires graph { IsGraph graph.now }
    requires may { MayWriteOne tree.now (bindings_of graph.now) place.now value }
    ensures { IfOk result (PlansOne tree.now (bindings_of graph.now) place.now value) }
{
    let values = give_one(alloc, place, value)?;
    let planned = plan_given(alloc, graph, tree, &[*place], values)?;
    Ok(planned)
}

/// What these writes give. Its error is that memory was refused.
pub fn give_all(alloc: Global, writes: &[Assignment]) -> Result<GivenValues, AllocError>
    ensures { IfOk result (λ given. AreGiven writes.now given.targets.items given.values) }
{
    let mut targets = Vec::with_capacity(alloc, writes.len())?;
    let mut values = IndexMap::with_capacity(alloc, writes.len())?;
    for write in writes {
        let value = write.value.copy()?;
        let earlier = values.insert(write.place.key(), value)?;
        if earlier.is_some() {
            continue;
        }
        targets.push(write.place)?;
    }
    Ok(GivenValues { targets, values })
}

/// Whether each of these properties has the value already that it is to have.
pub fn have_all(tree: &Tree, targets: &[Place], values: &IndexMap<(usize, usize), Value>) -> bool
    ensures { IsTrue result ↔ HaveAhead values.now tree.now targets.now }
{
    let mut likely: usize = 0;
    for target in targets {
        if !keeps(tree, target, values, likely) {
            return false;
        }
        likely = likely.saturating_add(1);
    }
    true
}

/// Whether the property has the value already that it is to have, which likely stands at this place among them.
fn keeps(
    tree: &Tree,
    place: &Place,
    values: &IndexMap<(usize, usize), Value>,
    likely: usize,
) -> bool
    ensures { IsTrue result
        ↔ (values_in (ahead values.now tree.now) place.now ≡ values_in tree.now place.now) }
{
    match value_ahead(tree, values, likely, place) {
        Some(value) => has_value(tree, place, value),
        None => true,
    }
}

/// Plans to give properties values that are of their types, and what follows from them without their own bindings. Its error
/// is that memory was refused.
pub fn plan_given(
    alloc: Global,
    graph: &Graph,
    tree: &Tree,
    targets: &[Place],
    values: IndexMap<(usize, usize), Value>,
) -> Result<Planned, AllocError>
    requires graph { IsGraph graph.now }
    requires given { MayGiveSome tree.now (bindings_of graph.now) targets.now values }
    ensures { IfOk result (PlansGiven tree.now (bindings_of graph.now) targets.now values) }
{
    let followers = followers(alloc, graph, targets, &values)?;
    let planned = plan(
        alloc,
        &graph.installed,
        targets,
        &followers,
        tree,
        values,
        0,
    )?;
    Ok(planned)
}
