//! A new connection, in a cell and in each list that it belongs to.

ghost use Rattle.std.specs.Prelude.{◌≡◌, ◌+◌, ◌≤◌, ◌∷◌, [], ◌++◌, OnOk};
ghost use Rattle.std.specs.Vec.{vec_capacity};
ghost use Rattle.slab.specs.Slab.{slab_len, HasRoomFor};
ghost use Rattle.connections.specs.code.Lists.{all_of};
ghost use Rattle.connections.specs.code.Rooms.{HasRooms, IsKept, Adds, placed_at, PushesBySignal, PushesByObject};

use crate::cell::Cell;
use crate::connection::Connection;
use crate::lists::Lists;
use crate::place::CellPlace;
use slab::Slab;
use std::alloc::{AllocError, Global};

/// Makes room for one more connection, and for a mark of each, or changes nothing that is seen.
pub fn make_rooms(
    alloc: Global,
    cells: &mut Slab<Cell>,
    lists: &mut Lists,
    marked: &mut Vec<usize>,
    c: &Connection,
) -> Result<(), AllocError>
    ensures cell { OnOk result (HasRoomFor cells.new 1) }
    ensures mark { OnOk result (slab_len cells.new + 1 ≤ vec_capacity marked.new) }
    ensures lists { OnOk result (HasRooms lists.new c.now) }
    ensures kept { IsKept cells.old lists.old marked.old cells.new lists.new marked.new }
{
    cells.reserve(1)?;
    marked.reserve(cells.capacity().saturating_sub(marked.len()))?;
    lists.make_room(alloc, c)
}

/// Puts a connection, for which there is room, into a cell and into its lists: the cell's key.
pub fn put(cells: &mut Slab<Cell>, lists: &mut Lists, c: Connection) -> usize
    requires cell { HasRoomFor cells.old 1 }
    requires lists { HasRooms lists.old c }
    ensures cell { Adds cells.old cells.new result c }
    ensures len { slab_len cells.new ≡ slab_len cells.old + 1 }
    ensures all { all_of lists.new ≡ all_of lists.old ++ placed_at c result ∷ [] }
    ensures signals { PushesBySignal lists.old lists.new c (placed_at c result) }
    ensures objects { PushesByObject lists.old lists.new c (placed_at c result) }
{
    let key = cells.insert_reserved(Cell {
        connection: c,
        live: true,
    });
    let place = CellPlace {
        number: c.number,
        key,
    };
    lists.push(&c, place);
    key
}
