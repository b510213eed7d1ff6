//! The cells that hold the connections.

ghost use Rattle.std.specs.Prelude.{◌≡◌};
ghost use Rattle.connections.specs.code.CellPlaces.{live_at, leads};

use crate::connection::Connection;
use crate::place::CellPlace;
use slab::Slab;

/// A connection, and whether it is still there.
#[derive(Clone, Copy)]
pub struct Cell {
    pub connection: Connection,
    pub live: bool,
}

/// The connection at a place, if it is still there.
pub fn live_at(cells: &Slab<Cell>, place: &CellPlace) -> Option<Connection>
    ensures { result ≡ live_at cells.now place.now }
{
    match cells.get(place.key) {
        None => None,
        Some(cell) => {
            if cell.live && cell.connection.number == place.number {
                Some(cell.connection)
            } else {
                None
            }
        }
    }
}

/// Whether a place leads to a connection that is still there.
pub fn leads(cells: &Slab<Cell>, place: &CellPlace) -> bool
    ensures { result ≡ leads cells.now place.now }
{
    match cells.get(place.key) {
        None => false,
        Some(cell) => cell.live && cell.connection.number == place.number,
    }
}
