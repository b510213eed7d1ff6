//! The groups of nodes that a search has entered and not left, the last one on top.

ghost use Rattle.std.specs.Prelude.{◌≡◌, [], ◌∷◌, ◌++◌, ◌⊎◌, IfOk, OnOk, MatchOption};
ghost use Rattle.settling_make.specs.Searching.{IsJoined};

use sqlite_items::Items;
use std::alloc::{AllocError, Global};
use std::marker::Model;

/// How far a search has come with a node.
#[derive(Clone, Copy)]
pub enum SearchState {
    /// It wasn't entered.
    New,
    /// It was entered and not left: so many nodes were entered before.
    Open(usize),
    /// It was left, as one of the component of this number.
    Done(usize),
}

/// Nodes that all lead to one another.
pub struct OpenComponent {
    /// How many nodes were entered before the first of them.
    pub first: usize,
    /// The nodes.
    pub members: Items<usize>,
    /// Ends of edges from the nodes that weren't looked at yet.
    pub pending: Items<usize>,
}

impl Drop for OpenComponent {
    fn drop(self) {
        let OpenComponent {
            first: _,
            members: _,
            pending: _,
        } = self;
    }
}

impl OpenComponent {
    /// Its nodes.
    pub fn into_members(self) -> Items<usize>
        ensures { result ≡ self.members }
    {
        let OpenComponent {
            first: _,
            members,
            pending: _,
        } = self;
        members
    }

    /// The group with the nodes of one above it. The error is that memory was refused.
    pub fn joined(self, above: OpenComponent) -> Result<OpenComponent, AllocError>
        ensures { IfOk result (IsJoined self above) }
    {
        let OpenComponent {
            first,
            members,
            pending,
        } = self;
        let OpenComponent {
            first: _,
            members: members_above,
            pending: pending_above,
        } = above;
        let members = both(members, members_above)?;
        let pending = both(pending, pending_above)?;
        Ok(OpenComponent {
            first,
            members,
            pending,
        })
    }
}

/// The numbers of both lists: those of the shorter one are put behind the others, so that a number is moved a few times only. The
/// error is that memory was refused.
fn both(one: Items<usize>, other: Items<usize>) -> Result<Items<usize>, AllocError>
    ensures { IfOk result (λ all. (all ≡ one ++ other) ⊎ (all ≡ other ++ one)) }
{
    if one.len() < other.len() {
        let mut all = other;
        all.append(one)?;
        Ok(all)
    } else {
        let mut all = one;
        all.append(other)?;
        Ok(all)
    }
}

/// The groups that a search has entered and not left, but for the last one.
#[derive(Drop)]
pub struct ComponentPath {
    groups: Vec<OpenComponent>,
}

impl Model for ComponentPath {
    ghost use Rattle.std.specs.Prelude.{List, reverse};
    ghost use Rattle.settling_make.specs.declared.groups.OpenComponent.{OpenComponent};

    ghost Value = { List OpenComponent };

    ghost view = { λ p. reverse p.groups.items };
}

impl ComponentPath {
    /// No group.
    pub fn new(alloc: Global) -> ComponentPath
        ensures { result ≡ [] }
    {
        ComponentPath {
            groups: Vec::new(alloc),
        }
    }

    /// Puts the group on top.
    pub fn push(&mut self, group: OpenComponent) -> Result<(), AllocError>
        ensures { OnOk result (self.new ≡ group ∷ self.old) }
    {
        self.groups.push(group)?;
        Ok(())
    }

    /// Takes the group on top off, if there is one.
    pub fn pop(&mut self) -> Option<OpenComponent>
        ensures { MatchOption result ((self.old ≡ []) × (self.new ≡ [])) (λ group.
            self.old ≡ group ∷ self.new) }
    {
        self.groups.pop()
    }
}
