//! For each property, the properties whose bindings read it.

ghost use Rattle.std.specs.Prelude.{◌≡◌, OnOk};
ghost use Rattle.binding_graph.specs.declared.place.Place.{Place};
ghost use Rattle.binding_graph.specs.code.Graph.{AreNamed, KeepReaders, LosesOnly, LosesReader, Named, reader_keys};

use crate::installed::Reader;
use crate::lists::{Places, add_place, drop_empty, forget_place, places_of};
use crate::place::{Place, contains};
use indexmap::IndexMap;
use std::alloc::{AllocError, Global};

/// The properties whose bindings read a property, under its numbers.
#[derive(Drop)]
pub struct Readers {
    pub by_source: IndexMap<(usize, usize), Places>,
}

impl Readers {
    /// Nothing is read.
    pub fn new(alloc: Global) -> Readers {
        Readers {
            by_source: IndexMap::new(alloc),
        }
    }

    /// The numbers of the properties whose bindings read this one.
    pub fn of(&self, source: &Place) -> &[(usize, usize)]
        ensures { result.now ≡ reader_keys self.now source.now }
    {
        places_of(&self.by_source, source.key())
    }

    /// The same, of a property that likely is the one after this many others in the order in which they were first read; the
    /// next one that is asked for is likely the one behind it. A comparison tells that it is, and only where it isn't it is
    /// looked up.
    #[inline(always)]
    pub fn of_near(&self, likely: &mut usize, source: &Place) -> &[(usize, usize)]
        ensures { result.now ≡ reader_keys self.now source.now }
    {
        let Some((key, places)) = self.by_source.as_slice().get_index(*likely) else {
            return self.of(source);
        };
        if key.0 != source.object.number() || key.1 != source.property {
            return self.of(source);
        }
        *likely = likely.saturating_add(1);
        places.as_slice()
    }

    /// Adds a reader to each property that it reads. Its error is that memory was refused; then some are added.
    pub fn enlist(&mut self, alloc: Global, reader: &Reader) -> Result<(), AllocError>
        ensures kept { KeepReaders self.old self.new }
        ensures named { OnOk result (AreNamed self.new reader.now) }
    {
        let target = reader.binding().target;
        let sources = reader.reads();
        for source in sources {
            self.add(alloc, source, &target)?;
        }
        Ok(())
    }

    /// Removes a reader from each property that it reads and that isn't among these.
    pub fn unlist(&mut self, reader: &Reader, kept: &[Place])
        ensures { LosesReader kept.now reader.now.target self.old self.new }
    {
        let target = reader.binding().target;
        let sources = reader.reads();
        for source in sources {
            if contains(kept, source) {
                continue;
            }
            self.forget(source, &target);
        }
    }

    /// Adds a reader of a property.
    fn add(&mut self, alloc: Global, source: &Place, reader: &Place) -> Result<(), AllocError>
        ensures kept { KeepReaders self.old self.new }
        ensures there { OnOk result (Named self.new source.now reader.now) }
    {
        add_place(alloc, &mut self.by_source, source.key(), reader.key())?;
        Ok(())
    }

    /// Removes a reader of a property, and the property where it has no other.
    fn forget(&mut self, source: &Place, reader: &Place)
        ensures { LosesOnly source.now reader.now self.old self.new }
    {
        forget_place(&mut self.by_source, source.key(), reader.key());
        drop_empty(&mut self.by_source, source.key());
    }
}
