//! Which connections are removed, and the marks that a removal leaves.

ghost use Rattle.std.specs.Prelude.{◌≡◌, ℕ, ◌+◌, ◌≤◌, if◌then◌else◌, eqb};
ghost use Rattle.std.specs.Option.{option_map};
ghost use Rattle.std.specs.Vec.{vec_len};
ghost use Rattle.slab.specs.Slab.{Slab as ASlab, get};
ghost use Rattle.connections.specs.declared.cell.Cell.{Cell as ACell};
ghost use Rattle.connections.specs.code.Cells.{fits, Retires, RetiresAt, Marked, LeadToEach, is_due};
ghost use Rattle.connections.specs.code.CellPlaces.{AreRising};
ghost use Rattle.connections.specs.code.Lists.{all_of, ListsLead, LeadTo, TidiesLists};

use crate::cell::Cell;
use crate::connection::Connection;
use crate::lists::Lists;
use crate::place::CellPlace;
use crate::search::place_of_number;
use crate::sweeping::forget;
use basic_types::ObjectId;
use slab::Slab;

/// Which connections are to be removed.
#[derive(Clone, Copy)]
pub enum Removal {
    /// Those from this signal of a sender to this method of a receiver.
    Between(ObjectId, usize, ObjectId, usize),
    /// Those from and to an object.
    Touching(ObjectId),
    /// The one of a number.
    Numbered(u64),
}

impl Removal {
    /// Whether the connection is one of these.
    pub fn fits(&self, c: &Connection) -> bool
        ensures { result ≡ fits self.now c.now }
    {
        match self {
            Removal::Between(sender, signal, receiver, method) => {
                c.joins(*sender, *signal, *receiver, *method)
            }
            Removal::Touching(object) => c.touches(*object),
            Removal::Numbered(number) => c.number == *number,
        }
    }
}

/// Removes the connections that are to be removed, and marks each: so many. Their cells stay.
pub fn remove(
    cells: &mut Slab<Cell>,
    lists: &mut Lists,
    marked: &mut Vec<usize>,
    removal: &Removal,
) -> usize
    requires led { (last : ℕ) × ListsLead cells.old lists.old last }
    requires marked { Marked cells.old marked.old }
    ensures cells { Retires removal.now cells.old cells.new }
    ensures lists { TidiesLists cells.new lists.old lists.new }
    ensures marked { Marked cells.new marked.new }
    ensures count { vec_len marked.new ≡ vec_len marked.old + result }
{
    let before = marked.len();
    mark_all(cells, marked, places_for(lists, removal), removal);
    forget(cells, lists, &marked[before..]);
    marked.len() - before
}

/// Places that lead to each connection that is to be removed.
fn places_for<'a>(lists: &'a Lists, removal: &Removal) -> &'a [CellPlace]
    requires { AreRising (all_of lists.now) }
    ensures { LeadTo lists.now (fits removal.now) result.now }
{
    match removal {
        Removal::Between(sender, signal, receiver, _) => {
            lists.of_either(*sender, *signal, *receiver)
        }
        Removal::Touching(object) => lists.of_object(*object),
        Removal::Numbered(number) => place_of_number(&lists.all.items, *number),
    }
}

/// Marks the cells of the connections that are to be removed, where these places lead to all of them.
fn mark_all(
    cells: &mut Slab<Cell>,
    marked: &mut Vec<usize>,
    places: &[CellPlace],
    removal: &Removal,
)
    requires marked { Marked cells.old marked.old }
    requires covers { LeadToEach cells.old (fits removal.now) places.now }
    ensures cells { Retires removal.now cells.old cells.new }
    ensures marked { Marked cells.new marked.new }
    ensures more { vec_len marked.old ≤ vec_len marked.new }
{
    for place in places {
        mark_one(cells, marked, place.key, removal);
    }
}

/// Removes the connection in a cell and marks it, if it is to be removed.
#[tactic(auto, using(crate::proofs::Counts::counts))]
fn mark_one(cells: &mut Slab<Cell>, marked: &mut Vec<usize>, key: usize, removal: &Removal)
    requires { Marked cells.old marked.old }
    ensures cells { RetiresAt key removal.now cells.old cells.new }
    ensures marked { Marked cells.new marked.new }
    ensures more { vec_len marked.old ≤ vec_len marked.new }
{
    if is_due(cells, key, removal) {
        marked.push_reserved(key);
        if let Some(cell) = cells.get_mut(key) {
            cell.live = false;
        }
    }
}

fn is_due(cells: &Slab<Cell>, key: usize, removal: &Removal) -> bool
    ensures { result ≡ is_due removal.now (get cells.now key) }
{
    match cells.get(key) {
        None => false,
        Some(cell) => cell.live && removal.fits(&cell.connection),
    }
}
