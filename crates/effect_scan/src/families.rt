//! Edges that are gathered by lists: many nodes lead to all of a list, and are then told by its number.

ghost use Rattle.std.specs.Prelude.{◌≡◌, ◌<◌, ℕ, length, IfOk, IfSome, Some, slice_get};
ghost use Rattle.std.specs.List.{Contains};
ghost use Rattle.effect_scan.specs.Rows.{AreAlike};
ghost use Rattle.effect_scan.specs.code.Adding.{Adds, Joins, AreOrdered};
ghost use Rattle.effect_scan.specs.code.Families.{HasList};

use crate::rows::{empty_rows, join};
use crate::sharing::order_gathered;
use crate::targets::Targets;
use sqlite_items::{Items, at};
use std::alloc::{AllocError, Global};
use std::marker::Model;
use std::mem;

/// The edges of nodes as they are gathered: for each node the numbers of its own, and the lists that it has in common with
/// other nodes, each of them kept once.
pub struct Families {
    own: Vec<Targets>,
    /// For each node the numbers of its lists.
    named: Vec<Targets>,
    lists: Items<Items<usize>>,
    /// At the place of the first number of a list the list's number, if it was the last one with that number.
    latest: Items<usize>,
}

/// The edges of nodes, in order.
#[derive(Drop)]
pub struct Ordered {
    /// For each node the numbers of those that it leads to.
    pub rows: Items<Targets>,
    /// For each node the number of one that leads to the same ones, the first where that is known.
    pub alike: Items<usize>,
}

impl Drop for Families {
    fn drop(self) {
        let Families {
            own: _,
            named: _,
            lists: _,
            latest: _,
        } = self;
    }
}

impl Model for Families {
    ghost use Rattle.std.specs.Prelude.{List, ℕ};
    ghost use Rattle.effect_scan.specs.code.Families.{gathered, AreNamed};

    ghost Value = { List (List ℕ) };

    ghost view = { λ families. gathered families.lists families.own.items families.named.items };

    ghost invariant = { λ families. AreNamed families.lists families.own.items families.named.items };
}

impl Families {
    /// The edges that nodes have of their own; the error is that memory was refused.
    pub fn of(alloc: Global, own: Vec<Targets>) -> Result<Families, AllocError>
        ensures { IfOk result (λ families. families ≡ own.items) }
    {
        let rows = own.as_slice();
        let named = empty_rows(alloc, rows.len())?;
        let latest = zeros(alloc, rows.len())?;
        Ok(Families {
            own,
            named,
            lists: Items::new(alloc),
            latest,
        })
    }

    /// The edges of no node.
    fn none(alloc: Global) -> Families {
        Families {
            own: Vec::new(alloc),
            named: Vec::new(alloc),
            lists: Items::new(alloc),
            latest: Items::new(alloc),
        }
    }

    /// Adds an edge from each of the first numbers to each of the others. After an error, which is that memory was refused,
    /// there are no nodes any more.
    pub fn join(
        &mut self,
        alloc: Global,
        sources: &[usize],
        targets: &[usize],
    ) -> Result<(), AllocError>
        requires { (a : ℕ) → Contains sources.now a → a < length self.old }
        ensures { IfOk result (λ _. Adds (Joins sources.now targets.now) self.old self.new) }
    {
        let families = mem::replace(self, Families::none(alloc));
        *self = families.joined(alloc, sources, targets)?;
        Ok(())
    }

    /// The same edges with one from each of the first numbers to each of the others.
    fn joined(
        self,
        alloc: Global,
        sources: &[usize],
        targets: &[usize],
    ) -> Result<Families, AllocError>
        requires { (a : ℕ) → Contains sources.now a → a < length self }
        ensures { IfOk result (λ families. Adds (Joins sources.now targets.now) self families) }
    {
        let Families {
            own,
            mut named,
            mut lists,
            mut latest,
        } = self;
        let number = number_of(alloc, &mut lists, &mut latest, targets)?;
        join(alloc, named.as_mut_slice(), sources, &[number])?;
        Ok(Families {
            own,
            named,
            lists,
            latest,
        })
    }

    /// The edges, for each node in order; nodes that have the same ones share them. The error is that memory was refused.
    pub fn in_order(self, alloc: Global) -> Result<Ordered, AllocError>
        ensures order { IfOk result (λ ordered. AreOrdered self ordered.rows) }
        ensures alike { IfOk result (λ ordered. AreAlike ordered.rows ordered.alike) }
    {
        let Families {
            mut own,
            named,
            lists,
            latest: _latest,
        } = self;
        let alike = order_gathered(
            alloc,
            own.as_mut_slice(),
            named.as_slice(),
            lists.as_slice(),
        )?;
        Ok(Ordered {
            rows: Items::from_vec(own),
            alike,
        })
    }
}

/// So many places, at each of which no later number was put than that of the first list.
fn zeros(alloc: Global, count: usize) -> Result<Items<usize>, AllocError> {
    let mut places = Vec::new(alloc);
    places.resize(count, 0)?;
    Ok(Items::from_vec(places))
}

/// The number of the list, which is put behind the others if it isn't known. The error is that memory was refused.
fn number_of(
    alloc: Global,
    lists: &mut Items<Items<usize>>,
    latest: &mut Items<usize>,
    list: &[usize],
) -> Result<usize, AllocError>
    ensures { IfOk result (HasList lists.old lists.new list.now) }
{
    let first = list.first().copied();
    if let Some(number) = known(lists.as_slice(), latest.as_slice(), first, list) {
        return Ok(number);
    }
    let number = lists.len();
    let copy = Items::from_slice(alloc, list)?;
    lists.push(copy)?;
    remember(latest, first, number);
    Ok(number)
}

/// The number of the list, if it was the last one that begins with this number.
fn known(
    lists: &[Items<usize>],
    latest: &[usize],
    first: Option<usize>,
    list: &[usize],
) -> Option<usize>
    ensures { IfSome result (λ n. slice_get lists.now n ≡ Some list.now) }
{
    let number = *at(latest, first?)?;
    let found = at(lists, number)?;
    if found.as_slice() == list {
        Some(number)
    } else {
        None
    }
}

/// The list of this number is the last one that begins with the first.
fn remember(latest: &mut Items<usize>, first: Option<usize>, number: usize) {
    if let Some(place) = first {
        if place < latest.len() {
            latest.set(place, number);
        }
    }
}
