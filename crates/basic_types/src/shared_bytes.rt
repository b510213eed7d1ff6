ghost use Rattle.std.specs.Prelude.{◌≡◌, ◌↔◌, length, IsTrue, IfOk};
ghost use Rattle.basic_types.specs.code.Holding.{held_bytes};

use crate::short_bytes::{MOST_SHORT, ShortBytes};
use std::alloc::{AllocError, Global};
use std::marker::Model;
use std::rc::{Rc, RcSlice};

/// How bytes are held.
#[derive(Drop)]
pub enum HeldBytes {
    /// A few, in place: names mostly are.
    Few(ShortBytes),
    /// More of them, in a list of their own.
    Many(RcSlice<u8>),
}

impl HeldBytes {
    /// These bytes.
    #[inline(always)]
    fn new(alloc: Global, bytes: &[u8]) -> Result<HeldBytes, AllocError>
        ensures { IfOk result (λ held. held_bytes held ≡ bytes.now) }
    {
        if bytes.len() <= MOST_SHORT {
            return Ok(HeldBytes::Few(ShortBytes::new(bytes)));
        }
        let list = RcSlice::from_slice(alloc, bytes)?;
        Ok(HeldBytes::Many(list))
    }

    /// The bytes.
    #[inline(always)]
    fn as_slice(&self) -> &[u8]
        ensures { result.now ≡ held_bytes self.now }
    {
        match self {
            HeldBytes::Few(short) => short.as_slice(),
            HeldBytes::Many(list) => list.as_slice(),
        }
    }
}

/// Bytes, which copies share.
pub struct SharedBytes {
    held: Rc<HeldBytes>,
}

impl Drop for SharedBytes {
    fn drop(self) {
        let SharedBytes { held: _ } = self;
    }
}

impl Model for SharedBytes {
    ghost use Rattle.std.specs.Prelude.{List, ℕ};
    ghost use Rattle.basic_types.specs.code.Holding.{held_bytes};

    ghost Value = { List ℕ };

    ghost view = { λ shared. held_bytes shared.held.value };
}

impl SharedBytes {
    /// These bytes, which nothing else shares yet.
    pub fn new(alloc: Global, bytes: &[u8]) -> Result<SharedBytes, AllocError>
        ensures { IfOk result (λ shared. shared ≡ bytes.now) }
    {
        let held = HeldBytes::new(alloc, bytes)?;
        let held = Rc::new(alloc, held)?;
        Ok(SharedBytes { held })
    }

    /// The bytes.
    #[inline(always)]
    pub fn as_slice(&self) -> &[u8]
        ensures { result.now ≡ self.now }
    {
        self.held.as_ref().as_slice()
    }

    /// How many there are.
    pub fn len(&self) -> usize
        ensures { result ≡ length self.now }
    {
        self.as_slice().len()
    }

    /// The same bytes, which are shared.
    #[inline(always)]
    pub fn copy(&self) -> Result<SharedBytes, AllocError>
        ensures { IfOk result (λ copy. copy ≡ self.now) }
    {
        let held = self.held.clone()?;
        Ok(SharedBytes { held })
    }

    /// Whether they are these.
    #[inline(always)]
    pub fn are(&self, bytes: &[u8]) -> bool
        ensures { IsTrue result ↔ (self.now ≡ bytes.now) }
    {
        self.as_slice() == bytes
    }
}
