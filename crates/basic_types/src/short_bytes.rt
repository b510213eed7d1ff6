//! A few bytes, which are held in place.

ghost use Rattle.std.specs.Prelude.{◌≡◌, ◌≤◌, length};

use std::marker::Model;

/// How many bytes are held in place at most.
pub const MOST_SHORT: usize = 22;

/// At most 22 bytes, which are held in place.
pub struct ShortBytes {
    count: u8,
    bytes: [u8; 22],
}

impl Drop for ShortBytes {
    fn drop(self) {
        let ShortBytes { count: _, bytes: _ } = self;
    }
}

impl Model for ShortBytes {
    ghost use Rattle.std.specs.Prelude.{List, ℕ, take, ◌≤◌};

    ghost Value = { List ℕ };

    ghost view = { λ short. take short.count short.bytes };

    ghost invariant = { λ short. short.count ≤ 22 };
}

impl ShortBytes {
    /// These bytes.
    #[inline(always)]
    pub fn new(bytes: &[u8]) -> ShortBytes
        requires { length bytes.now ≤ 22 }
        ensures { result ≡ bytes.now }
    {
        let mut kept = [0u8; 22];
        kept[..bytes.len()].copy_from_slice(bytes);
        ShortBytes {
            count: bytes.len() as u8,
            bytes: kept,
        }
    }

    /// The bytes.
    #[inline(always)]
    pub fn as_slice(&self) -> &[u8]
        ensures { result.now ≡ self.now }
    {
        &self.bytes[..usize::from(self.count)]
    }
}
