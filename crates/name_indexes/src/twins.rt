//! Items that are called alike.

ghost use Rattle.std.specs.Prelude.{take};
ghost use Rattle.name_indexes.specs.CallPlaces.{call_place, IndexesCalls, AreCalledAlike};
ghost use Rattle.name_indexes.specs.Twice.{StandsTwice};
ghost use Rattle.name_indexes.specs.code.Twins.{FindsTwins, IsEarlier};

use crate::call_index::CallIndex;
use crate::called::Called;

/// Two items that are called alike, by their places.
#[derive(Clone, Copy, Debug, PartialEq, Eq)]
pub struct Twins {
    /// The first one.
    pub first: usize,
    /// One behind it.
    pub again: usize,
}

/// The first item that is called as one before it is, beside that one, where no two of the inherited ones, which are so
/// many, are called alike.
pub fn find_twins<T: Called>(index: &CallIndex, inherited: usize, items: &[T]) -> Option<Twins>
    requires indexed { IndexesCalls T.name_of T.count_of items.now index.now }
    requires once { ¬ StandsTwice (AreCalledAlike T.name_of T.count_of) (take inherited items.now) }
    ensures { FindsTwins (AreCalledAlike T.name_of T.count_of) items.now result }
{
    for place in inherited..items.len() {
        let item = &items[place];
        if let Some(first) = earlier(index, place, item) {
            return Some(Twins {
                first,
                again: place,
            });
        }
    }
    None
}

/// The place that the index has for the item, if that is before this one.
fn earlier<T: Called>(index: &CallIndex, place: usize, item: &T) -> Option<usize>
    ensures { IsEarlier (call_place T.name_of T.count_of index.now item.now) place result }
{
    let Some(first) = index.find(item.called(), item.count()) else {
        return None;
    };
    if first < place { Some(first) } else { None }
}
