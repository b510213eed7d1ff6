//! Bytes that a text has again and again are kept once.

ghost use Rattle.std.specs.Prelude.{◌≡◌, IfOk, IfSome};

use basic_types::SharedBytes;
use sqlite_items::Items;
use std::alloc::{AllocError, Global};

/// How long a text is, in bytes, for which places are made: in a shorter one too little comes again.
const WORTH_PLACES: usize = 2048;

/// How long a text is, in bytes, that is worth more places, and one that is worth many.
const LONG: usize = 1 << 16;

const VERY_LONG: usize = 1 << 19;

/// Spreads the bytes over a number by one multiplication for each: an odd number with few bits, as that of FNV's hash.
const SPREAD: u32 = 0x0100_0193;

/// Gives shared bytes. Where the same ones were asked for a short time ago, it gives those, and takes no memory.
pub struct Interner {
    alloc: Global,
    places: Items<Option<SharedBytes>>,
}

impl Drop for Interner {
    fn drop(self) {
        let Interner {
            alloc: _,
            places: _,
        } = self;
    }
}

impl Interner {
    /// One for texts of so many bytes in all, which has met nothing.
    pub fn new(alloc: Global, text: usize) -> Result<Interner, AllocError> {
        let places = free_places(alloc, places_for(text))?;
        Ok(Interner { alloc, places })
    }

    /// These bytes, shared.
    #[inline(never)]
    pub fn share(&mut self, bytes: &[u8]) -> Result<SharedBytes, AllocError>
        ensures { IfOk result (λ shared. shared ≡ bytes.now) }
    {
        self.share_often(bytes)
    }

    /// These bytes, shared, as `share` gives them, for where that is done most.
    #[inline(always)]
    pub fn share_often(&mut self, bytes: &[u8]) -> Result<SharedBytes, AllocError>
        ensures { IfOk result (λ shared. shared ≡ bytes.now) }
    {
        let at = self.place_of(bytes);
        if let Some(known) = self.known(at, bytes)? {
            return Ok(known);
        }
        self.add(at, bytes)
    }

    /// In which place the bytes are kept, if there are any places: a number that all of the bytes go into.
    #[inline(always)]
    fn place_of(&self, bytes: &[u8]) -> usize {
        let mut number = 0u32;
        for byte in bytes {
            number = number.wrapping_mul(SPREAD).wrapping_add(u32::from(*byte));
        }
        number as usize & self.places.len().wrapping_sub(1)
    }

    /// What is kept in the place, if it is these bytes.
    #[inline(always)]
    fn known(&self, at: usize, bytes: &[u8]) -> Result<Option<SharedBytes>, AllocError>
        ensures { IfOk result (λ found. IfSome found (λ known. known ≡ bytes.now)) }
    {
        match self.places.get(at) {
            Some(Some(kept)) if kept.are(bytes) => {
                let known = kept.copy()?;
                Ok(Some(known))
            }
            _ => Ok(None),
        }
    }

    /// These bytes, which are kept in the place from now on.
    #[inline(never)]
    fn add(&mut self, at: usize, bytes: &[u8]) -> Result<SharedBytes, AllocError>
        ensures { IfOk result (λ shared. shared ≡ bytes.now) }
    {
        let shared = SharedBytes::new(self.alloc, bytes)?;
        if at < self.places.len() {
            let kept = shared.copy()?;
            self.places.set(at, Some(kept));
        }
        Ok(shared)
    }
}

/// How many places there are for the bytes of so long a text that may come again: a power of two, or none.
fn places_for(text: usize) -> usize {
    if text < WORTH_PLACES {
        0
    } else if text < LONG {
        512
    } else if text < VERY_LONG {
        4096
    } else {
        16384
    }
}

/// So many places in which nothing is kept.
fn free_places(alloc: Global, count: usize) -> Result<Items<Option<SharedBytes>>, AllocError> {
    let mut places = Vec::with_capacity(alloc, count)?;
    for _ in 0..count {
        places.push(None)?;
    }
    Ok(Items::from_vec(places))
}
