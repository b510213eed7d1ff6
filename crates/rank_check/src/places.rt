//! The lines of nodes, by their places in the certificate.

ghost use Rattle.std.specs.Prelude.{◌≡◌, length, replicate, IfOk, MatchOption, None};
ghost use Rattle.rank_check.specs.Entries.{AreBelow, PlacesEach, FindsPlaces, FindsAll, AreOnce, IsExtraLine};

use crate::causes::Extra;
use sqlite_items::Items;
use std::alloc::{AllocError, Global};

/// The place of a line for each of so many nodes, or the first node that has no line. Its error is that memory was refused.
pub fn line_places(
    alloc: Global,
    count: usize,
    numbers: &[Option<usize>],
) -> Result<Result<Items<usize>, usize>, AllocError>
    requires { AreBelow count numbers.now }
    ensures { IfOk result (FindsPlaces count numbers.now) }
{
    let places = last_places(alloc, count, numbers)?;
    all_places(alloc, places.as_slice())
}

/// For each of so many nodes the place of the last line that is for it, or `None` where there is none. Its error is that
/// memory was refused.
fn last_places(
    alloc: Global,
    count: usize,
    numbers: &[Option<usize>],
) -> Result<Items<Option<usize>>, AllocError>
    requires { AreBelow count numbers.now }
    ensures { IfOk result (PlacesEach count numbers.now) }
{
    let mut places = no_places(alloc, count)?;
    for (place, number) in numbers.iter().enumerate() {
        if let Some(node) = number {
            places.set(*node, Some(place));
        }
    }
    Ok(places)
}

/// No node has a line yet.
fn no_places(alloc: Global, count: usize) -> Result<Items<Option<usize>>, AllocError>
    ensures { IfOk result (λ places. places ≡ replicate count None) }
{
    let mut places = Items::from_vec(Vec::with_capacity(alloc, count)?);
    for _node in 0..count {
        places.push(None)?;
    }
    Ok(places)
}

/// The places, or the first node that has none.
fn all_places(
    alloc: Global,
    places: &[Option<usize>],
) -> Result<Result<Items<usize>, usize>, AllocError>
    ensures { IfOk result (FindsAll places.now) }
{
    let mut all = Items::from_vec(Vec::with_capacity(alloc, places.len())?);
    for (node, place) in places.iter().enumerate() {
        match place {
            Some(line) => all.push(*line)?,
            None => return Ok(Err(node)),
        }
    }
    Ok(Ok(all))
}

/// The first line that is for no node, or for the node of another one.
fn first_extra(numbers: &[Option<usize>], places: &[usize]) -> Option<Extra>
    requires { AreBelow (length places.now) numbers.now }
    ensures { MatchOption result (AreOnce numbers.now places.now) (IsExtraLine numbers.now places.now) }
{
    for (place, number) in numbers.iter().enumerate() {
        match number {
            Some(node) => {
                let last = places[*node];
                if last != place {
                    return Some(Extra::Twice(place, last));
                }
            }
            None => return Some(Extra::Unknown(place)),
        }
    }
    None
}

/// The same of numbers that aren't needed any more.
pub fn take_first_extra(numbers: Items<Option<usize>>, places: &[usize]) -> Option<Extra>
    requires { AreBelow (length places.now) numbers }
    ensures { MatchOption result (AreOnce numbers places.now) (IsExtraLine numbers places.now) }
{
    first_extra(numbers.as_slice(), places)
}
