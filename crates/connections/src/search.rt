//! Searches in lists of places, whose numbers rise.

ghost use Rattle.std.specs.Prelude.{◌≡◌, ℕ, ◌<◌, ◌≤◌, length, eqb, nat_lt, drop, IfSome};
ghost use Rattle.std.specs.List.{Contains, find, list_any};
ghost use Rattle.connections.specs.code.Cells.{fits};
ghost use Rattle.connections.specs.code.CellPlaces.{live, first_above, AreRising, SplitsAt, IsRestFrom, HoldNumbered};
ghost use Rattle.connections.specs.declared.place.CellPlace.{CellPlace as ACellPlace};

use crate::cell::{Cell, live_at};
use crate::connection::Connection;
use crate::place::CellPlace;
use crate::removing::Removal;
use slab::Slab;

/// How many places have lower numbers.
fn from_number(places: &[CellPlace], number: u64) -> usize
    requires { AreRising places.now }
    ensures within { result ≤ length places.now }
    ensures split { SplitsAt places.now number result }
{
    match guess(places, number) {
        Some(place) => place,
        None => places.partition_point(|p| p.number < number),
    }
}

/// How many places have lower numbers, where that needs no search: none does, or the place of this number stands where it
/// does among places whose numbers follow one another, as those of connections that were made one after the other do.
fn guess(places: &[CellPlace], number: u64) -> Option<usize>
    requires { AreRising places.now }
    ensures { IfSome result (λ at. (at < length places.now) × SplitsAt places.now number at) }
{
    let (first, _) = places.split_first()?;
    if number <= first.number {
        return Some(0);
    }
    let ahead = number - first.number;
    if ahead >= places.len() as u64 {
        return None;
    }
    let at = ahead as usize;
    if places[at].number == number {
        Some(at)
    } else {
        None
    }
}

/// The places of at least this number.
fn places_from(places: &[CellPlace], number: u64) -> &[CellPlace]
    requires { AreRising places.now }
    ensures { IsRestFrom number places.now result.now }
{
    &places[from_number(places, number)..]
}

/// The place of this number, if there is one.
pub fn place_of_number(places: &[CellPlace], number: u64) -> &[CellPlace]
    requires { AreRising places.now }
    ensures held { HoldNumbered number places.now result.now }
    ensures one { length result.now ≤ 1 }
{
    let rest = places_from(places, number);
    &rest[..rest.len().min(1)]
}

/// The first connection of the places that is numbered above `number`.
pub fn next_above(cells: &Slab<Cell>, places: &[CellPlace], number: u64) -> Option<Connection>
    requires { AreRising places.now }
    ensures { result ≡ first_above number (live cells.now places.now) }
{
    first_above(cells, places_from(places, number), number)
}

/// The same in any order of the places.
fn first_above(cells: &Slab<Cell>, places: &[CellPlace], number: u64) -> Option<Connection>
    ensures { result ≡ first_above number (live cells.now places.now) }
{
    for place in places {
        if number < place.number {
            if let Some(c) = live_at(cells, place) {
                return Some(c);
            }
        }
    }
    None
}

/// Whether one of the places leads to a connection that would be removed.
pub fn lead_to_any(cells: &Slab<Cell>, places: &[CellPlace], removal: &Removal) -> bool
    ensures { result ≡ list_any (fits removal.now) (live cells.now places.now) }
{
    for place in places {
        if let Some(c) = live_at(cells, place) {
            if removal.fits(&c) {
                return true;
            }
        }
    }
    false
}
