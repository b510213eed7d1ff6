//! Values as they are written down.

ghost use Rattle.std.specs.Prelude.{◌≡◌, [], ◌∷◌, ◌++◌, OnOk, OnErr};

use crate::entry::Shown;
use smallvec::SmallVec;
use std::alloc::{AllocError, Global};
use std::marker::Model;

/// Values as they are written down, in their order. A single one needs no allocation.
pub struct ShownValues {
    values: SmallVec<Shown, 1>,
}

impl Drop for ShownValues {
    fn drop(self) {
        let ShownValues { values: _ } = self;
    }
}

impl Model for ShownValues {
    ghost use Rattle.std.specs.Prelude.{List};
    ghost use Rattle.trace_entries.specs.declared.entry.Shown.{Shown as AValue};

    ghost Value = { List AValue };

    ghost view = { λ shown. shown.values.items };
}

impl ShownValues {
    /// No values, which take no memory.
    pub fn new(alloc: Global) -> ShownValues
        ensures { result ≡ [] }
    {
        ShownValues {
            values: SmallVec::new(alloc),
        }
    }

    /// The values in their order.
    pub fn as_slice(&self) -> &[Shown]
        ensures { result.now ≡ self.now }
    {
        self.values.as_slice()
    }

    /// Adds a value at the end; without memory they stay as they were.
    pub fn push(&mut self, value: Shown) -> Result<(), AllocError>
        ensures ok { OnOk result (self.new ≡ self.old ++ value ∷ []) }
        ensures err { OnErr result (self.new ≡ self.old) }
    {
        self.values.push(value)?;
        Ok(())
    }
}
