//! The strongly connected components of a graph: sets of nodes that all lead to one another.

ghost use Rattle.std.specs.Prelude.{◌≡◌, ◌<◌, ℕ, length, map, IfOk};
ghost use Rattle.rank_graph.specs.Graphs.{InRange};
ghost use Rattle.settling_make.specs.Components.{AreComponents, number_of};
ghost use Rattle.settling_make.specs.Searching.{AllDone};
ghost use Rattle.settling_make.specs.declared.groups.SearchState.TheVariants.{Done};

use crate::groups::SearchState;
use crate::search::search_all;
use effect_scan::Targets;
use sqlite_items::{Items, at};
use std::alloc::{AllocError, Global};

/// The strongly connected components of a graph. They have numbers, which don't rise along edges.
pub struct Components {
    /// For each node the number of its component.
    pub numbers: Items<usize>,
    /// For each component, by number, its nodes.
    pub sets: Items<Items<usize>>,
}

impl Drop for Components {
    fn drop(self) {
        let Components {
            numbers: _,
            sets: _,
        } = self;
    }
}

impl Components {
    /// The number of the node's component; 0 past the last node.
    pub fn number(&self, node: usize) -> usize
        ensures { result ≡ number_of self.now.numbers node }
    {
        number_at(self.numbers.as_slice(), node)
    }
}

/// The number of the node among these; 0 past the last node.
pub fn number_at(numbers: &[usize], node: usize) -> usize
    ensures { result ≡ number_of numbers.now node }
{
    match at(numbers, node) {
        Some(number) => *number,
        None => 0,
    }
}

/// The components of the graph. The error is that memory was refused. Takes time linear in the nodes and edges, but for lists
/// that are joined: a number is moved once for each time that its list gets twice as long.
pub fn components_of(alloc: Global, rows: &[Targets]) -> Result<Components, AllocError>
    requires { InRange rows.now }
    ensures { IfOk result (AreComponents rows.now) }
{
    let (states, sets) = search_all(alloc, rows)?.into_found();
    let numbers = numbers_of(alloc, states.as_slice())?;
    Ok(Components { numbers, sets })
}

/// The numbers of the nodes' components, all of which were left. The error is that memory was refused.
fn numbers_of(alloc: Global, states: &[SearchState]) -> Result<Items<usize>, AllocError>
    requires { AllDone states.now }
    ensures { IfOk result (λ numbers. map Done numbers ≡ states.now) }
{
    let mut numbers = Vec::with_capacity(alloc, states.len())?;
    for state in states {
        match state {
            SearchState::Done(number) => numbers.push(*number)?,
            _ => unreachable!(),
        }
    }
    Ok(Items::from_vec(numbers))
}
