//! Where the items of a list stand that belong to one class.

ghost use Rattle.std.specs.Prelude.{◌≡◌, IfOk, OnOk};
ghost use Rattle.meta_model.specs.Indexes.{HoldsNone, Adds, last_of, before_of, IndexesOwners, IndexesWires};

use crate::object::{MetaOwns, MetaWire};
use sqlite_items::Items;
use std::alloc::{AllocError, Global};

/// The places of a list's items by the class to which each belongs: of a class the last one, and of an item the one before
/// it that belongs to the same class. So those of one class are found without a look at the others, and take two words each.
pub struct ClassPlaces {
    /// The place of the last item, by the classes' numbers.
    pub last: Items<Option<usize>>,
    /// The place of the item before, by the items' places.
    pub before: Items<Option<usize>>,
}

impl Drop for ClassPlaces {
    fn drop(self) {
        let ClassPlaces { last: _, before: _ } = self;
    }
}

impl ClassPlaces {
    /// No items, of so many classes. The error is that memory was refused.
    fn empty(alloc: Global, classes: usize) -> Result<ClassPlaces, AllocError>
        ensures { IfOk result (HoldsNone classes) }
    {
        let mut last = Items::new(alloc);
        for class in 0..classes {
            last.push(None)?;
        }
        Ok(ClassPlaces {
            last,
            before: Items::new(alloc),
        })
    }

    /// One more item, which belongs to this class. The error is that memory was refused.
    fn push(&mut self, class: usize) -> Result<(), AllocError>
        ensures { OnOk result (Adds self.old self.new class) }
    {
        let place = self.before.len();
        let earlier = self.last_of(class);
        self.before.push(earlier)?;
        if class < self.last.len() {
            self.last.set(class, Some(place));
        }
        Ok(())
    }

    /// The place of the last item that belongs to the class.
    pub fn last_of(&self, class: usize) -> Option<usize>
        ensures { result ≡ last_of self.now class }
    {
        match self.last.get(class) {
            Some(place) => *place,
            None => None,
        }
    }

    /// The place of the item before this one that belongs to the same class.
    pub fn earlier_of(&self, place: usize) -> Option<usize>
        ensures { result ≡ before_of self.now place }
    {
        match self.before.get(place) {
            Some(before) => *before,
            None => None,
        }
    }
}

/// The declarations of owners by the parents' classes; its error is that memory was refused.
pub fn index_owners(
    alloc: Global,
    classes: usize,
    owns: &[MetaOwns],
) -> Result<ClassPlaces, AllocError>
    ensures { IfOk result (IndexesOwners owns.now classes) }
{
    let mut index = ClassPlaces::empty(alloc, classes)?;
    for declared in owns {
        index.push(declared.parent)?;
    }
    Ok(index)
}

/// The wires by the senders' classes; its error is that memory was refused.
pub fn index_wires(
    alloc: Global,
    classes: usize,
    wires: &[MetaWire],
) -> Result<ClassPlaces, AllocError>
    ensures { IfOk result (IndexesWires wires.now classes) }
{
    let mut index = ClassPlaces::empty(alloc, classes)?;
    for wire in wires {
        index.push(wire.sender)?;
    }
    Ok(index)
}
