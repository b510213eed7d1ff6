//! Sets of numbers below 128.

ghost use Rattle.std.specs.Prelude.{◌≡◌, ◌↔◌, ℕ, ◌<◌, ◌||◌, ◌==◌, false, IsTrue};
ghost use Rattle.rank_graph.specs.declared.bits.TheConstants.{SIZE};
ghost use Rattle.rank_graph.specs.Bits.{has};

/// How many numbers there are.
pub const SIZE: usize = 128;

/// Above the numbers of 64 bits.
const WORD: u128 = 0x1_0000_0000_0000_0000;

/// A set of numbers below 128, a bit for each of them.
#[derive(Clone, Copy)]
pub struct Bits {
    bits: u128,
}

impl Bits {
    /// No numbers.
    pub fn none() -> Bits
        ensures has { (c : ℕ) → has result c ≡ false }
        ensures zero { result.bits ≡ 0 }
    {
        Bits { bits: 0 }
    }

    /// Whether both sets have the same numbers.
    #[inline(always)]
    pub fn is_same(self, other: Bits) -> bool
        ensures { IsTrue result ↔ (self ≡ other) }
    {
        self.bits == other.bits
    }

    /// A number for the set, which is mostly another one for another set.
    pub fn mixed(self) -> usize {
        let low = (self.bits % WORD) as usize;
        let high = (self.bits / WORD) as usize;
        low.wrapping_mul(31).wrapping_add(high)
    }

    /// Whether the set has no number.
    pub fn is_none(self) -> bool
        ensures { IsTrue result ↔ ((c : ℕ) → c < SIZE → has self c ≡ false) }
    {
        self.bits == 0
    }

    /// Whether the set has the number.
    #[inline(always)]
    pub fn contains(self, number: u32) -> bool
        requires { number < 128 }
        ensures { result ≡ has self number }
    {
        (self.bits >> number) & 1 == 1
    }

    /// The set with the number too.
    pub fn with(self, number: u32) -> Bits
        requires { number < 128 }
        ensures { (c : ℕ) → has result c ≡ (has self c || c == number) }
    {
        Bits {
            bits: self.bits | (1 << number),
        }
    }

    /// The numbers of both sets.
    #[inline(always)]
    pub fn union(self, other: Bits) -> Bits
        ensures { (c : ℕ) → has result c ≡ (has self c || has other c) }
    {
        Bits {
            bits: self.bits | other.bits,
        }
    }
}
