//! Removed connections leave the lists, and in a sweep their cells.

ghost use Rattle.std.specs.Prelude.{◌≡◌, ℕ, ◌≤◌};
ghost use Rattle.std.specs.Vec.{vec_len};
ghost use Rattle.slab.specs.Slab.{get, slab_len};
ghost use Rattle.connections.specs.code.Cells.{Marked, HoldDead, Sweeps, SweepsAt, is_dead};
ghost use Rattle.connections.specs.code.Lists.{TidiesLists};

use crate::cell::Cell;
use crate::groups::{forget_places, tidy_groups};
use crate::lists::Lists;
use slab::Slab;

/// So many cells are emptied before the lists are tidied, so that few are not tidied time and again.
const FEW: usize = 64;

/// The places of the connections in these cells, which were removed, lead nowhere any more.
pub fn forget(cells: &Slab<Cell>, lists: &mut Lists, keys: &[usize])
    ensures { TidiesLists cells.now lists.old lists.new }
{
    lists.all.forget(keys.len(), cells);
    for key in keys {
        forget_one(cells, lists, *key);
    }
}

/// The place under its signal of the connection in a cell, which was removed, leads nowhere any more. Those under its objects
/// stay until the lists are tidied.
fn forget_one(cells: &Slab<Cell>, lists: &mut Lists, key: usize)
    ensures { TidiesLists cells.now lists.old lists.new }
{
    if let Some(cell) = cells.get(key) {
        let pair = (cell.connection.sender.number(), cell.connection.signal);
        forget_places(&mut lists.by_signal, lists.near_signal, pair, 1, cells);
    }
}

/// Empties each cell whose connection was removed.
pub fn sweep(cells: &mut Slab<Cell>, marked: &mut Vec<usize>)
    requires { Marked cells.old marked.old }
    ensures marked { Marked cells.new marked.new }
    ensures none { vec_len marked.new ≡ 0 }
    ensures cells { Sweeps cells.old cells.new }
{
    sweep_keys(cells, marked);
    marked.clear();
}

/// Empties the cells of these keys whose connections were removed.
fn sweep_keys(cells: &mut Slab<Cell>, keys: &[usize])
    requires { HoldDead cells.old keys.now }
    ensures cells { Sweeps cells.old cells.new }
    ensures len { slab_len cells.new ≤ slab_len cells.old }
{
    for key in keys {
        sweep_one(cells, *key);
    }
}

/// Empties the cell of this key, if its connection was removed.
fn sweep_one(cells: &mut Slab<Cell>, key: usize)
    ensures cells { SweepsAt key cells.old cells.new }
    ensures len { slab_len cells.new ≤ slab_len cells.old }
{
    if is_dead(cells, key) {
        cells.try_remove(key);
    }
}

/// Whether the connection in a cell was removed.
fn is_dead(cells: &Slab<Cell>, key: usize) -> bool
    ensures { result ≡ is_dead (get cells.now key) }
{
    match cells.get(key) {
        None => false,
        Some(cell) => !cell.live,
    }
}

/// Tidies the lists, once so many cells were emptied since they were tidied last that there are fewer left: how many were
/// emptied since.
pub fn tidy(cells: &Slab<Cell>, lists: &mut Lists, emptied: usize) -> usize
    ensures { TidiesLists cells.now lists.old lists.new }
{
    if emptied <= cells.len().saturating_add(FEW) {
        return emptied;
    }
    tidy_groups(&mut lists.by_signal, cells);
    tidy_groups(&mut lists.by_object, cells);
    0
}
