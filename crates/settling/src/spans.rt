//! What the nodes of a set that comes to rest have in common.

ghost use Rattle.std.specs.Prelude.{ℕ, ◌≡◌, ◌<◌, ◌+◌, ◌^◌, length, slice_get, Some, IfOk};
ghost use Rattle.settling.specs.code.Spans.{IsBegun, IsCounted, IsNext, AddsNode, AreBegun, AreInOrder, AreSpans};

use crate::certificate::SettlingSet;
use crate::falling::is_property;
use crate::standings::Standing;
use sqlite_items::Items;
use std::alloc::{AllocError, Global};

/// What the nodes of a set have in common, as far as they have been looked at, in the order of nodes.
#[derive(Clone, Copy)]
pub struct Span {
    /// The round of the set.
    pub round: u32,
    /// Their least rank.
    pub rank: u32,
    /// Their least step.
    pub step: u32,
    /// The class of the last property.
    pub class: usize,
    /// How many properties of that class there are.
    pub count: usize,
    /// The most properties that a class has, or 1.
    pub most: usize,
}

impl Span {
    /// That of no node.
    fn begun(round: u32) -> Span
        ensures { IsBegun round result }
    {
        Span {
            round,
            rank: u32::MAX,
            step: u32::MAX,
            class: 0,
            count: 0,
            most: 1,
        }
    }

    /// That of one node more.
    fn with(self, standing: Standing) -> Span
        requires { self.count + 1 < 2 ^ 64 }
        ensures { IsNext self standing result }
    {
        let rank = self.rank.min(standing.rank);
        let step = self.step.min(standing.step);
        if is_property(standing.node) {
            self.counted(rank, step, standing.node.class)
        } else {
            Span { rank, step, ..self }
        }
    }

    /// That of one property more, of this class, and with this least rank and step.
    fn counted(self, rank: u32, step: u32, class: usize) -> Span
        requires { self.count + 1 < 2 ^ 64 }
        ensures round { result.round ≡ self.round }
        ensures rank { result.rank ≡ rank }
        ensures step { result.step ≡ step }
        ensures tally { IsCounted self.class self.count self.most class result }
    {
        let count = if class == self.class {
            self.count + 1
        } else {
            1
        };
        Span {
            round: self.round,
            rank,
            step,
            class,
            count,
            most: self.most.max(count),
        }
    }
}

/// For each set what its nodes have in common. Its error is that memory was refused.
pub fn spans_of(
    alloc: Global,
    sets: &[SettlingSet],
    standings: &[Standing],
) -> Result<Items<Span>, AllocError>
    requires inside { (n k : ℕ) (s : Standing) → slice_get standings.now n ≡ Some s → s.set ≡ Some k → k < length sets.now }
    requires order { AreInOrder standings.now }
    ensures { IfOk result (AreSpans sets.now standings.now) }
{
    let mut spans = begun_spans(alloc, sets)?;
    for standing in standings {
        add_node(&mut spans, *standing);
    }
    Ok(spans)
}

/// Adds the node to what the nodes of its set have in common, if it is of one.
fn add_node(spans: &mut Items<Span>, standing: Standing)
    requires inside { (k : ℕ) → standing.set ≡ Some k → k < length spans.old }
    requires room { (k : ℕ) (span : Span) → slice_get spans.old k ≡ Some span → span.count + 1 < 2 ^ 64 }
    ensures { AddsNode standing spans.old spans.new }
{
    if let Some(set) = standing.set {
        let span = spans.as_slice()[set];
        spans.set(set, span.with(standing));
    }
}

/// For each set that of no node. Its error is that memory was refused.
fn begun_spans(alloc: Global, sets: &[SettlingSet]) -> Result<Items<Span>, AllocError>
    ensures { IfOk result (AreBegun sets.now) }
{
    let mut spans = Items::from_vec(Vec::with_capacity(alloc, sets.len())?);
    for set in sets {
        spans.push(Span::begun(set.round))?;
    }
    Ok(spans)
}
