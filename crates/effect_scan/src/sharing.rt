//! The rows of nodes that were gathered by lists: those of nodes with the same lists are one.

ghost use Rattle.std.specs.Prelude.{◌≡◌, ◌++◌, ◌<◌, ◌≤◌, length, IfOk, IsTrue};
ghost use Rattle.effect_scan.specs.code.Adding.{AreOrdered, IsOrdered};
ghost use Rattle.effect_scan.specs.code.Families.{gathered, spread, IsTwin, AreTwins, IsSettled};
ghost use Rattle.effect_scan.specs.Rows.{row, AreAlike};

use crate::rows::{row_at, targets_at};
use crate::targets::Targets;
use sqlite_items::Items;
use std::alloc::{AllocError, Global};

/// How many places there are for the nodes that are looked for again. Where two nodes belong at one place, the later one is
/// there, and what the other one has is kept anew when a node has the same: that takes memory, and nothing else.
const PLACES: usize = 4096;

/// Puts the rows in order, each with the numbers of its lists. Answers for each node one whose row is the same, the first where
/// that is known.
pub fn order_gathered(
    alloc: Global,
    rows: &mut [Targets],
    named: &[Targets],
    lists: &[Items<usize>],
) -> Result<Items<usize>, AllocError>
    requires { length named.now ≡ length rows.old }
    ensures order { IfOk result (λ _. AreOrdered (gathered lists.now rows.old named.now) rows.new) }
    ensures alike { IfOk result (AreAlike rows.new) }
{
    let twins = twins(alloc, rows, named)?;
    settle_all(alloc, rows, named, lists, twins.as_slice())?;
    Ok(twins)
}

/// Puts the rows in order, each with the numbers of its lists, where for each node its twin is known.
fn settle_all(
    alloc: Global,
    rows: &mut [Targets],
    named: &[Targets],
    lists: &[Items<usize>],
    twins: &[usize],
) -> Result<(), AllocError>
    requires named { length named.now ≡ length rows.old }
    requires count { length twins.now ≡ length rows.old }
    requires twins { AreTwins rows.old named.now twins.now }
    ensures order { IfOk result (λ _. AreOrdered (gathered lists.now rows.old named.now) rows.new) }
    ensures alike { IfOk result (λ _. AreAlike rows.new twins.now) }
{
    for node in 0..rows.len() {
        settle(alloc, rows, named, lists, node, twins[node])?;
    }
    Ok(())
}

/// For each node the first one that is known to have the same numbers and the same lists.
fn twins(alloc: Global, rows: &[Targets], named: &[Targets]) -> Result<Items<usize>, AllocError>
    ensures { IfOk result (AreTwins rows.now named.now) }
{
    let mut places = no_places(alloc)?;
    let mut twins = Items::from_vec(Vec::with_capacity(alloc, rows.len())?);
    for node in 0..rows.len() {
        let place = place_of(targets_at(named, node));
        let twin = twin_of(rows, named, places.get(place).copied(), node);
        remember(&mut places, place, twin);
        twins.push(twin)?;
    }
    Ok(twins)
}

/// Places at which no later node was put: the first one belongs to each.
fn no_places(alloc: Global) -> Result<Items<usize>, AllocError> {
    let mut places = Vec::new(alloc);
    places.resize(PLACES, 0)?;
    Ok(Items::from_vec(places))
}

/// The place where a node with these lists belongs.
fn place_of(named: &[usize]) -> usize {
    let mut mixed = named.len();
    for number in named {
        // The first bits of such a product hang on all bits of what is multiplied.
        mixed = mixed
            .wrapping_add(*number)
            .wrapping_mul(0x9E37_79B9_7F4A_7C15);
    }
    (mixed >> 32) % PLACES
}

/// This other node, if it stands before and has the same; else the node itself. A node without lists is looked for at no other
/// one: it has few numbers.
fn twin_of(rows: &[Targets], named: &[Targets], other: Option<usize>, node: usize) -> usize
    ensures { IsTwin rows.now named.now node result }
{
    match other {
        Some(other)
            if other < node
                && !targets_at(named, node).is_empty()
                && is_same(named, other, node)
                && is_same(rows, other, node) => { other }
        _ => node,
    }
}

/// Whether both nodes have the same row.
fn is_same(rows: &[Targets], first: usize, second: usize) -> bool
    ensures { IsTrue result → row rows.now first ≡ row rows.now second }
{
    targets_at(rows, first) == targets_at(rows, second)
}

/// The node is the latest one of its place.
fn remember(places: &mut Items<usize>, place: usize, node: usize) {
    if place < places.len() {
        places.set(place, node);
    }
}

/// Puts the row of the node in order, with the numbers of its lists: that of its twin, where this stands before it.
fn settle(
    alloc: Global,
    rows: &mut [Targets],
    named: &[Targets],
    lists: &[Items<usize>],
    node: usize,
    twin: usize,
) -> Result<(), AllocError>
    requires { node < length rows.old }
    ensures { IfOk result (λ _. IsSettled lists.now named.now node twin rows.old rows.new) }
{
    if twin < node {
        let row = rows[twin].copy(alloc)?;
        rows[node] = row;
        return Ok(());
    }
    merge(alloc, &mut rows[node], targets_at(named, node), lists)
}

/// Adds the numbers of the lists, and puts all in order, so that other nodes can have it too where there are lists.
fn merge(
    alloc: Global,
    row: &mut Targets,
    named: &[usize],
    lists: &[Items<usize>],
) -> Result<(), AllocError>
    ensures { IfOk result (λ _. IsOrdered (row.old ++ spread lists.now named.now) row.new) }
{
    // What is gathered is mostly in order, and then the lists are merged.
    for number in named {
        row.unite(alloc, row_at(lists, *number))?;
    }
    row.put_in_order(alloc)?;
    if named.is_empty() {
        return Ok(());
    }
    row.share(alloc)
}
