//! The places of a text, and how they are found.

ghost use Rattle.std.specs.Prelude.{◌≡◌};
ghost use Rattle.diagnostics.specs.OtherPlaces.{ReadsPlaces, FindsAt};
ghost use Rattle.diagnostics.specs.code.Keys.{key_of};

use crate::other_text::fault::PlacesFault;
use crate::other_text::place::{OtherPlace, place_of};
use sqlite_items::Items;
use std::alloc::Global;
use std::marker::Model;
use texts::split_line;

/// What lies between two lines of the program, in numbers.
const LINE: u128 = 18_446_744_073_709_551_616;

/// The places of a text, in the order of the program. Contracts see the list of them.
#[derive(Drop)]
pub struct OtherPlaces<'t> {
    places: Items<OtherPlace<'t>>,
    /// The number of each.
    keys: Items<u128>,
}

impl<'t> Model for OtherPlaces<'t> {
    ghost use Rattle.std.specs.Prelude.{List};
    ghost use Rattle.diagnostics.specs.declared.other_text.place.OtherPlace.{OtherPlace};
    ghost use Rattle.diagnostics.specs.code.Keys.{AreIndexed};

    ghost Value = { List OtherPlace };

    ghost view = { λ text. text.places };

    ghost invariant = { λ text. AreIndexed text.places text.keys };
}

impl<'t> OtherPlaces<'t> {
    /// What stands at this line and this column of the program; `None` where nothing does.
    pub fn at(&self, line: usize, column: usize) -> Option<&OtherPlace<'t>>
        ensures { FindsAt self.now line column result }
    {
        match self.keys.as_slice().binary_search(&key(line, column)) {
            Ok(place) => self.places.get(place),
            Err(_) => None,
        }
    }
}

/// The number of a line and a column of the program.
fn key(line: usize, column: usize) -> u128
    ensures { result ≡ key_of line column }
{
    line as u128 * LINE + column as u128
}

/// Reads the places of a text: a line for each, in the order of the program (docs/places.md).
///
/// - `NoPlace`: the first line, counted from 1, that is no place, or none behind the one above it.
/// - `Memory`: a growth of memory was refused.
pub fn read_places(alloc: Global, text: &[u8]) -> Result<OtherPlaces<'_>, PlacesFault>
    ensures { ReadsPlaces text.now result }
{
    let mut places = Items::new(alloc);
    let mut keys = Items::new(alloc);
    let mut last = 0u128;
    let mut left = text;
    let mut number = 0usize;
    while let Some((line, rest)) = split_line(left) {
        number += 1;
        let Some(place) = place_of(alloc, line)? else {
            return Err(PlacesFault::NoPlace(number));
        };
        let key = key(place.line, place.column);
        if key <= last {
            return Err(PlacesFault::NoPlace(number));
        }
        keys.push(key)?;
        places.push(place)?;
        last = key;
        left = rest;
    }
    Ok(OtherPlaces { places, keys })
}
