//! The types of a method's parameters, which copies share.

ghost use Rattle.std.specs.Prelude.{◌≡◌, length, slice_get, ◌<◌, IfOk, OnSome};
ghost use Rattle.std.specs.Option.{option_copied};
ghost use Rattle.basic_types.specs.code.Holding.{held_types};

use crate::qtype::QType;
use crate::shared::Shared;
use sqlite_items::Items;
use std::alloc::{AllocError, Global};
use std::marker::Model;

/// The most parameters that a signature has.
pub const MOST_PARAMETERS: usize = 8;

/// How types are held.
#[derive(Drop)]
pub enum HeldTypes {
    /// There are none.
    Nothing,
    /// There is one.
    One([QType; 1]),
    /// They are a list that copies share.
    Several(Shared<Items<QType>>),
}

/// The types of a method's parameters, in their order. A single one needs no allocation, and copies need none.
pub struct ParameterTypes {
    held: HeldTypes,
}

impl Drop for ParameterTypes {
    fn drop(self) {
        let ParameterTypes { held: _ } = self;
    }
}

impl Model for ParameterTypes {
    ghost use Rattle.std.specs.Prelude.{List};
    ghost use Rattle.basic_types.specs.declared.qtype.QType.{QType as AType};
    ghost use Rattle.basic_types.specs.code.Holding.{held_types};

    ghost Value = { List AType };

    ghost view = { λ types. held_types types.held };
}

impl ParameterTypes {
    /// These types. The error is that memory was refused.
    pub fn new(alloc: Global, mut types: Items<QType>) -> Result<ParameterTypes, AllocError>
        ensures { IfOk result (λ kept. kept ≡ types) }
    {
        if types.len() > 1 {
            let list = Shared::new(alloc, types)?;
            return Ok(ParameterTypes {
                held: HeldTypes::Several(list),
            });
        }
        let held = match types.pop() {
            Some(one) => HeldTypes::One([one]),
            None => HeldTypes::Nothing,
        };
        Ok(ParameterTypes { held })
    }

    /// The same types. The error is that there are more copies than can be counted.
    pub fn copy(&self) -> Result<ParameterTypes, AllocError>
        ensures { IfOk result (λ copy. copy ≡ self.now) }
    {
        let held = match &self.held {
            HeldTypes::Nothing => HeldTypes::Nothing,
            HeldTypes::One(one) => HeldTypes::One([one[0].copy()?]),
            HeldTypes::Several(list) => HeldTypes::Several(list.copy()?),
        };
        Ok(ParameterTypes { held })
    }

    /// The types in their order.
    pub fn as_slice(&self) -> &[QType]
        ensures { result.now ≡ self.now }
    {
        match &self.held {
            HeldTypes::Nothing => &[],
            HeldTypes::One(one) => one.as_slice(),
            HeldTypes::Several(list) => list.get().as_slice(),
        }
    }

    /// How many there are.
    pub fn len(&self) -> usize
        ensures { result ≡ length self.now }
    {
        self.as_slice().len()
    }

    /// The type at this place, counted from 0.
    pub fn get(&self, place: usize) -> Option<&QType>
        ensures value { option_copied result ≡ slice_get self.now place }
        ensures within { OnSome result (place < length self.now) }
    {
        self.as_slice().get(place)
    }
}
