ghost use Rattle.std.specs.Prelude.{◌≡◌, [], IfOk, OnOk, OnErr};
ghost use Rattle.name_indexes.specs.NamePlaces.{place_in, Adds};

use basic_types::Name;
use std::alloc::{AllocError, Global};
use std::collections::HashMap;
use std::marker::Model;

/// Names, each with the first place that it was given. A name is found in time that doesn't grow with their number.
pub struct NameIndex {
    places: HashMap<Name, usize>,
}

impl Drop for NameIndex {
    fn drop(self) {
        let NameIndex { places: _ } = self;
    }
}

impl Model for NameIndex {
    ghost use Rattle.std.specs.Prelude.{List, ℕ};

    ghost Value = { List (List ℕ × ℕ) };

    ghost view = { λ index. index.places.entries };
}

impl NameIndex {
    /// An index without names, which takes memory with its first one.
    pub fn new(alloc: Global) -> NameIndex
        ensures { result ≡ [] }
    {
        NameIndex {
            places: HashMap::new(alloc),
        }
    }

    /// An index without names, which has memory for so many. The error is that memory was refused.
    pub fn with_room(alloc: Global, names: usize) -> Result<NameIndex, AllocError>
        ensures { IfOk result (λ index. index ≡ []) }
    {
        if names == 0 {
            return Ok(NameIndex::new(alloc));
        }
        let places = HashMap::with_capacity(alloc, names)?;
        Ok(NameIndex { places })
    }

    /// Gives a name a place; a name that has one keeps it. The error is that memory was refused: then nothing changes.
    pub fn insert(&mut self, name: &Name, place: usize) -> Result<(), AllocError>
        ensures ok { OnOk result (Adds name.now place self.old self.new) }
        ensures err { OnErr result (self.new ≡ self.old) }
    {
        let name = name.copy()?;
        self.places.entry(name)?.or_insert(place);
        Ok(())
    }

    /// The place of the name, or `None` where it has none.
    pub fn find(&self, name: &Name) -> Option<usize>
        ensures { result ≡ place_in self.now name.now }
    {
        self.places.get(name).copied()
    }
}
