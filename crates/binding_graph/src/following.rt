//! What follows from some properties: what chains of bindings lead to from them.

ghost use Rattle.std.specs.Prelude.{◌≡◌, map, IfOk, OnOk};
ghost use Rattle.std.specs.Option.{is_some};
ghost use Rattle.indexmap.specs.IndexMap.{get};
ghost use Rattle.binding_graph.specs.declared.place.Place.{Place};
ghost use Rattle.binding_graph.specs.Places.{is_in};
ghost use Rattle.binding_graph.specs.Bindings.{binding_at, without_all};
ghost use Rattle.binding_graph.specs.code.Graph.{IsGraph, bindings_of, reader_keys};
ghost use Rattle.binding_graph.specs.code.Keys.{key_of, same_key};
ghost use Rattle.binding_graph.specs.code.Lists.{place_at};
ghost use Rattle.binding_graph.specs.code.Orders.{IsAffected};
ghost use Rattle.binding_graph.specs.code.BindingRanks.{rank_of};
ghost use Rattle.binding_graph.specs.code.Turns.{AddsReaders, AreTurns, is_turn, turns_in};

use crate::graph::Graph;
use crate::place::{Place, contains};
use crate::turns::Turns;
use basic_types::Value;
use indexmap::IndexMap;
use std::alloc::{AllocError, Global};
use std::cmp::Reverse;

/// What chains of the other bindings lead to from these properties, each once, a source before its reader. These have the
/// given values, so that none of them follows. Nothing else is looked at. None has its turn before one whose readers aren't
/// found yet, since a source's number is below its reader's.
pub fn followers(
    alloc: Global,
    graph: &Graph,
    from: &[Place],
    given: &IndexMap<(usize, usize), Value>,
) -> Result<Vec<Place>, AllocError>
    requires graph { IsGraph graph.now }
    requires given { (q : Place) → is_some (get same_key given.now (key_of q)) ≡ is_in from.now q }
    ensures { IfOk result (λ found. IsAffected
        (binding_at (without_all from.now (bindings_of graph.now))) from.now found.items) }
{
    let mut turns = Turns::new(alloc);
    let mut likely = Likely { source: 0, slot: 0 };
    for source in from {
        add_readers(graph, source, &mut likely, &mut turns)?;
    }
    let mut found = Vec::new(alloc);
    let mut last = None;
    'turns: while let Some(Reverse((number, key))) = turns.pop() {
        let place = Place::at(key);
        if is_turn(last, number) {
            continue;
        }
        if is_given(from, given, &place) {
            continue;
        }
        last = Some(number);
        found.push(place)?;
        add_readers(graph, &place, &mut likely, &mut turns)?;
    }
    Ok(found)
}

/// Whether this number's turn was the last one.
fn is_turn(last: Option<usize>, number: usize) -> bool
    ensures { result ≡ is_turn number last }
{
    match last {
        Some(taken) => taken == number,
        None => false,
    }
}

/// So many properties are sooner compared than looked up.
const FEW: usize = 4;

/// Whether this is one of these properties, which have the given values.
fn is_given(from: &[Place], given: &IndexMap<(usize, usize), Value>, place: &Place) -> bool
    requires { (q : Place) → is_some (get same_key given.now (key_of q)) ≡ is_in from.now q }
    ensures { result ≡ is_in from.now place.now }
{
    if from.len() <= FEW {
        contains(from, place)
    } else {
        given.contains_key(&place.key())
    }
}

/// Where the next ones likely stand: they mostly come in the order in which they were installed.
#[derive(Drop)]
struct Likely {
    /// The next property among those that are read.
    source: usize,
    /// The slot of the next binding.
    slot: usize,
}

/// Adds the readers of a source.
fn add_readers(
    graph: &Graph,
    source: &Place,
    likely: &mut Likely,
    turns: &mut Turns,
) -> Result<(), AllocError>
    requires graph { IsGraph graph.now }
    requires turns { AreTurns turns.old }
    ensures turns { OnOk result (AreTurns turns.new) }
    ensures added { OnOk result (AddsReaders (binding_at (bindings_of graph.now)) (rank_of graph.now.ranks)
        source.now (map place_at (reader_keys graph.now.readers source.now)) (turns_in turns.old) (turns_in turns.new)) }
{
    let readers = graph.readers.of_near(&mut likely.source, source);
    for key in readers {
        let Some(number) = graph.rank_of_reader(&mut likely.slot, &Place::at(*key), source) else {
            continue;
        };
        turns.push(Reverse((number, *key)))?;
    }
    Ok(())
}
