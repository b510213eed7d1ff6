ghost use Rattle.std.specs.Prelude.{◌≡◌, [], ◌∷◌, ◌++◌, length, IfOk, OnOk, OnErr};

use crate::value::Value;
use smallvec::SmallVec;
use std::alloc::{AllocError, Global};
use std::marker::Model;

/// The arguments of a call or an emission, in their order. Up to two of them need no allocation.
pub struct Arguments {
    values: SmallVec<Value, 2>,
}

impl Drop for Arguments {
    fn drop(self) {
        let Arguments { values: _ } = self;
    }
}

impl Model for Arguments {
    ghost use Rattle.std.specs.Prelude.{List};
    ghost use Rattle.basic_types.specs.declared.value.Value.{Value as AValue};

    ghost Value = { List AValue };

    ghost view = { λ arguments. arguments.values.items };
}

impl Arguments {
    /// No arguments, which take no memory.
    pub fn new(alloc: Global) -> Arguments
        ensures { result ≡ [] }
    {
        Arguments {
            values: SmallVec::new(alloc),
        }
    }

    /// Arguments equal to these values.
    pub fn copy_of(alloc: Global, values: &[Value]) -> Result<Arguments, AllocError>
        ensures { IfOk result (λ copies. copies ≡ values.now) }
    {
        let mut copies = Arguments::new(alloc);
        for value in values {
            let copy = value.copy()?;
            copies.push(copy)?;
        }
        Ok(copies)
    }

    /// The values in their order.
    pub fn as_slice(&self) -> &[Value]
        ensures { result.now ≡ self.now }
    {
        self.values.as_slice()
    }

    /// Adds a value at the end; without memory the arguments stay as they were.
    pub fn push(&mut self, value: Value) -> Result<(), AllocError>
        ensures ok { OnOk result (self.new ≡ self.old ++ value ∷ []) }
        ensures err { OnErr result (self.new ≡ self.old) }
    {
        self.values.push(value)?;
        Ok(())
    }
}
