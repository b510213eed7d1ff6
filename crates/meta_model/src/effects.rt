//! What natives may read and do.

ghost use Rattle.std.specs.Prelude.{◌≡◌, IfOk};

use sqlite_items::Items;
use std::alloc::{AllocError, Global};

/// What a native may read and do: the numbers of members of the class that declares it, in the order declared, which are
/// the same members in every class below that. No number appears twice in one of the lists.
pub struct MetaEffects {
    /// The properties whose values it is given.
    pub reads: Items<usize>,
    /// The signals that it may emit, none of which is one that the runtime emits.
    pub emits: Items<usize>,
    /// The properties that it may set.
    pub sets: Items<usize>,
}

impl Drop for MetaEffects {
    fn drop(self) {
        let MetaEffects {
            reads: _,
            emits: _,
            sets: _,
        } = self;
    }
}

impl MetaEffects {
    /// The same effects; the error is that memory was refused.
    pub fn copy(&self, alloc: Global) -> Result<MetaEffects, AllocError>
        ensures { IfOk result (λ copy. copy ≡ self.now) }
    {
        let reads = Items::from_slice(alloc, self.reads.as_slice())?;
        let emits = Items::from_slice(alloc, self.emits.as_slice())?;
        let sets = Items::from_slice(alloc, self.sets.as_slice())?;
        Ok(MetaEffects { reads, emits, sets })
    }
}
