//! A search in depth for the nodes that all lead to one another.

ghost use Rattle.std.specs.Prelude.{◌≡◌, ℕ, ◌<◌, ◌+◌, ◌^◌, [], length, replicate, IfOk};
ghost use Rattle.std.specs.List.{Contains};
ghost use Rattle.rank_graph.specs.Graphs.{InRange};
ghost use Rattle.settling_make.specs.Searching.{Between, Enters, Leaves, Visited, state_of, AllDone};
ghost use Rattle.settling_make.specs.declared.groups.SearchState.TheVariants.{New};

use crate::groups::{ComponentPath, OpenComponent, SearchState};
use effect_scan::{Targets, targets_at};
use sqlite_items::Items;
use std::alloc::{AllocError, Global};

/// What a search has found.
pub struct ComponentSearch {
    /// How far it has come with each node.
    pub states: Items<SearchState>,
    /// The components whose nodes were left, each behind those that it leads to.
    pub sets: Items<Items<usize>>,
    /// How many nodes were entered.
    pub entered: usize,
}

impl Drop for ComponentSearch {
    fn drop(self) {
        let ComponentSearch {
            states: _,
            sets: _,
            entered: _,
        } = self;
    }
}

/// Searches from all nodes. The error is that memory was refused.
pub fn search_all(alloc: Global, rows: &[Targets]) -> Result<ComponentSearch, AllocError>
    requires { InRange rows.now }
    ensures { IfOk result (λ search. Between rows.now search × AllDone search.states) }
{
    let mut search = ComponentSearch {
        states: new_states(alloc, rows.len())?,
        sets: Items::new(alloc),
        entered: 0,
    };
    for root in 0..rows.len() {
        if let SearchState::New = search.states.as_slice()[root] {
            search.visit(alloc, rows, root)?;
        }
    }
    Ok(search)
}

/// The states of so many nodes that weren't entered. The error is that memory was refused.
fn new_states(alloc: Global, count: usize) -> Result<Items<SearchState>, AllocError>
    ensures { IfOk result (λ states. states ≡ replicate count New) }
{
    let mut states = Vec::new(alloc);
    states.resize(count, SearchState::New)?;
    Ok(Items::from_vec(states))
}

impl ComponentSearch {
    /// The states of the nodes, and the components.
    pub fn into_found(self) -> (Items<SearchState>, Items<Items<usize>>)
        ensures states { result.0 ≡ self.states }
        ensures sets { result.1 ≡ self.sets }
    {
        let ComponentSearch {
            states,
            sets,
            entered: _,
        } = self;
        (states, sets)
    }

    /// Follows the edges from a node, and from each node that is met for the first time, until all of these were left. The error
    /// is that memory was refused.
    fn visit(&mut self, alloc: Global, rows: &[Targets], root: usize) -> Result<(), AllocError>
        requires inside { InRange rows.now }
        requires between { Between rows.now self.old }
        requires root { root < length rows.now }
        requires fresh { state_of self.old.states root ≡ New }
        ensures { IfOk result (λ _. Visited rows.now self.old root self.new) }
    {
        let _count = rows.len();
        let mut path = ComponentPath::new(alloc);
        let mut at = self.enter(alloc, rows, root)?;
        'search: loop {
            match at.pending.pop() {
                Some(target) => match self.states.as_slice()[target] {
                    SearchState::Done(_) => {}
                    SearchState::New => {
                        at.pending.push(target)?;
                        path.push(at)?;
                        at = self.enter(alloc, rows, target)?;
                    }
                    SearchState::Open(time) => {
                        if time < at.first {
                            at.pending.push(target)?;
                            match path.pop() {
                                Some(below) => at = below.joined(at)?,
                                None => unreachable!(),
                            }
                        }
                    }
                },
                None => {
                    self.leave(at.into_members())?;
                    match path.pop() {
                        Some(below) => at = below,
                        None => return Ok(()),
                    }
                }
            }
        }
    }

    /// Enters the node: it is a group by itself. The error is that memory was refused.
    fn enter(
        &mut self,
        alloc: Global,
        rows: &[Targets],
        node: usize,
    ) -> Result<OpenComponent, AllocError>
        requires node { node < length self.old.states }
        requires entered { self.old.entered + 1 < 2 ^ 64 }
        ensures { IfOk result (Enters rows.now node self.old self.new) }
    {
        let first = self.entered;
        self.states.set(node, SearchState::Open(first));
        self.entered = first + 1;
        let members = Items::from_slice(alloc, &[node])?;
        let pending = Items::from_slice(alloc, targets_at(rows, node))?;
        Ok(OpenComponent {
            first,
            members,
            pending,
        })
    }

    /// Leaves these nodes, which are a component. The error is that memory was refused.
    fn leave(&mut self, members: Items<usize>) -> Result<(), AllocError>
        requires { (a : ℕ) → Contains members a → a < length self.old.states }
        ensures { IfOk result (λ _. Leaves members self.old self.new) }
    {
        let number = self.sets.len();
        for member in members.as_slice() {
            self.states.set(*member, SearchState::Done(number));
        }
        self.sets.push(members)?;
        Ok(())
    }
}
