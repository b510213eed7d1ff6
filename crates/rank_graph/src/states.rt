//! How far a search has come with each node, in little memory: nodes with one entry share it.

ghost use Rattle.std.specs.Prelude.{◌≡◌, ◌<◌, [], ◌++◌, ◌∷◌, length, map, replicate, slice_get, slice_set, Some, IfOk, OnOk, OnErr, IfSome};
ghost use Rattle.rank_graph.specs.Searching.{AllDone, state_of};
ghost use Rattle.rank_graph.specs.Shared.{entry_in, AreLeft, HasEntry};
ghost use Rattle.rank_graph.specs.declared.path.VisitState.TheVariants.{New, Open, Done};
ghost use Rattle.rank_graph.specs.declared.states.NodeMark.TheVariants.{Unmet, Left};

use crate::bits::Bits;
use crate::path::{NodeRank, VisitState};
use sqlite_items::{Items, at};
use std::alloc::{AllocError, Global};
use std::marker::Model;

/// How many places there are for the entries that are looked for again. Where two entries belong at one place, the later one is
/// there, and the other one is kept anew when a node has it: that takes memory, and nothing else.
const PLACES: usize = 1024;

/// How far a search has come with a node, with the number of its entry.
#[derive(Clone, Copy)]
pub enum NodeMark {
    /// It wasn't entered.
    Unmet,
    /// It was entered and not left.
    Entered,
    /// It was left, and this is its entry's number.
    Left(usize),
}

/// How far a search has come with each node.
pub struct States {
    marks: Items<NodeMark>,
    entries: Items<NodeRank>,
    /// At each place the number of an entry that belongs there, if there is one.
    places: Items<usize>,
}

impl Drop for States {
    fn drop(self) {
        let States {
            marks: _,
            entries: _,
            places: _,
        } = self;
    }
}

impl Model for States {
    ghost use Rattle.std.specs.Prelude.{List, map};
    ghost use Rattle.rank_graph.specs.Shared.{state_in, AreKept};
    ghost use Rattle.rank_graph.specs.declared.path.VisitState.{VisitState};

    ghost Value = { List VisitState };

    ghost view = { λ states. map (state_in states.entries) states.marks };

    ghost invariant = { λ states. AreKept states.entries states.marks };
}

impl States {
    /// So many nodes that weren't entered; its error is that memory was refused.
    pub fn fresh(alloc: Global, count: usize) -> Result<States, AllocError>
        ensures { IfOk result (λ states. states ≡ replicate count New) }
    {
        let marks = unmet(alloc, count)?;
        let places = no_places(alloc)?;
        Ok(States {
            marks,
            entries: Items::new(alloc),
            places,
        })
    }

    /// How many nodes there are.
    pub fn len(&self) -> usize
        ensures { result ≡ length self.now }
    {
        self.marks.len()
    }

    /// The state of the node.
    #[inline(always)]
    pub fn get(&self, node: usize) -> VisitState
        requires { node < length self.now }
        ensures { result ≡ state_of self.now node }
    {
        match self.marks.as_slice()[node] {
            NodeMark::Unmet => VisitState::New,
            NodeMark::Entered => VisitState::Open,
            NodeMark::Left(number) => VisitState::Done(entry_at(self.entries.as_slice(), number)),
        }
    }

    /// The node is entered.
    pub fn enter(&mut self, node: usize)
        requires { node < length self.old }
        ensures { self.new ≡ slice_set self.old node Open }
    {
        self.marks.set(node, NodeMark::Entered);
    }

    /// The node is left, with this entry; the error is that memory was refused.
    pub fn leave(&mut self, node: usize, entry: NodeRank) -> Result<(), AllocError>
        requires { node < length self.old }
        ensures { OnOk result (self.new ≡ slice_set self.old node (Done entry)) }
    {
        let place = place_of(entry);
        let latest = self.places.get(place).copied();
        let number = number_of(&mut self.entries, latest, entry)?;
        remember(&mut self.places, place, number);
        self.marks.set(node, NodeMark::Left(number));
        Ok(())
    }

    /// The entries of the nodes, all of which were left; its error is that memory was refused.
    pub fn found(self, alloc: Global) -> Result<Found, AllocError>
        requires { AllDone self }
        ensures { IfOk result (λ found. map Done found ≡ self) }
    {
        let States {
            marks,
            entries,
            places: _places,
        } = self;
        let numbers = numbers_of(alloc, marks.as_slice())?;
        Ok(Found { numbers, entries })
    }
}

/// The marks of so many nodes that weren't entered.
fn unmet(alloc: Global, count: usize) -> Result<Items<NodeMark>, AllocError>
    ensures { IfOk result (λ marks. marks ≡ replicate count Unmet) }
{
    let mut marks = Vec::new(alloc);
    marks.resize(count, NodeMark::Unmet)?;
    Ok(Items::from_vec(marks))
}

/// Places at which no later entry was put: the first one belongs to each.
fn no_places(alloc: Global) -> Result<Items<usize>, AllocError> {
    let mut places = Vec::new(alloc);
    places.resize(PLACES, 0)?;
    Ok(Items::from_vec(places))
}

/// The place where the entry belongs.
fn place_of(entry: NodeRank) -> usize {
    let mixed = entry.classes.mixed().wrapping_add(entry.rank);
    // The first bits of such a product hang on all bits of what is multiplied.
    (mixed.wrapping_mul(0x9E37_79B9_7F4A_7C15) >> 32) % PLACES
}

/// The number of the entry: the latest one of its place, where that is an equal entry's; else the entry is kept anew. The error
/// is that memory was refused.
fn number_of(
    entries: &mut Items<NodeRank>,
    latest: Option<usize>,
    entry: NodeRank,
) -> Result<usize, AllocError>
    ensures ok { IfOk result (HasEntry entries.old entries.new entry) }
    ensures err { OnErr result (entries.new ≡ entries.old) }
{
    if let Some(number) = known(entries.as_slice(), latest, entry) {
        return Ok(number);
    }
    let number = entries.len();
    entries.push(entry)?;
    Ok(number)
}

/// This number, if it is that of an equal entry.
fn known(entries: &[NodeRank], number: Option<usize>, entry: NodeRank) -> Option<usize>
    ensures { IfSome result (λ n. slice_get entries.now n ≡ Some entry) }
{
    let number = number?;
    let found = at(entries, number)?;
    if found.rank == entry.rank && found.classes.is_same(entry.classes) {
        Some(number)
    } else {
        None
    }
}

/// The number is the latest one of its place.
fn remember(places: &mut Items<usize>, place: usize, number: usize) {
    if place < places.len() {
        places.set(place, number);
    }
}

/// The entry of this number; that of a node without edges past the last one.
#[inline(always)]
fn entry_at(entries: &[NodeRank], number: usize) -> NodeRank
    ensures { result ≡ entry_in entries.now number }
{
    match at(entries, number) {
        Some(entry) => *entry,
        None => NodeRank {
            rank: 0,
            classes: Bits::none(),
        },
    }
}

/// The numbers of the entries of nodes that were left.
fn numbers_of(alloc: Global, marks: &[NodeMark]) -> Result<Items<usize>, AllocError>
    requires { AreLeft marks.now }
    ensures { IfOk result (λ numbers. map Left numbers ≡ marks.now) }
{
    let mut numbers = Vec::with_capacity(alloc, marks.len())?;
    for mark in marks {
        match mark {
            NodeMark::Left(number) => numbers.push(*number)?,
            _ => unreachable!(),
        }
    }
    Ok(Items::from_vec(numbers))
}

/// The entries of nodes.
pub struct Found {
    numbers: Items<usize>,
    entries: Items<NodeRank>,
}

impl Drop for Found {
    fn drop(self) {
        let Found {
            numbers: _,
            entries: _,
        } = self;
    }
}

impl Model for Found {
    ghost use Rattle.std.specs.Prelude.{List, map};
    ghost use Rattle.rank_graph.specs.Shared.{entry_in};
    ghost use Rattle.rank_graph.specs.declared.path.NodeRank.{NodeRank};

    ghost Value = { List NodeRank };

    ghost view = { λ found. map (entry_in found.entries) found.numbers };
}

impl Found {
    /// The entry of the node, if there is such a node.
    #[inline(always)]
    pub fn entry(&self, node: usize) -> Option<NodeRank>
        ensures { result ≡ slice_get self.now node }
    {
        match at(self.numbers.as_slice(), node) {
            Some(number) => Some(entry_at(self.entries.as_slice(), *number)),
            None => None,
        }
    }
}
