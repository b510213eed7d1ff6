//! Bytes that are kept back until they are worth a write.

ghost use Rattle.std.specs.Prelude.{◌≡◌, [], ◌∷◌, ◌++◌, ◌+◌, ◌≤◌, codes, length, take};
ghost use Rattle.std.specs.Bool.{OnTrue, OnFalse};

use std::alloc::Global;
use std::marker::Model;

/// Room for so many bytes is made first.
const FIRST_ROOM: usize = 512;

/// So many bytes are kept back at most.
const MOST_ROOM: usize = 65536;

/// A name has so many bytes at most, where it is added together with what stands around it.
const SHORT: usize = 16;

/// Bytes that are kept back, at most 65,536 of them, as far as there is memory for them. Contracts see their list. Room for
/// them is made as they come: a few lines take little, and no block of memory that is so large that the allocator first
/// puts together what was given back to it.
#[derive(Drop)]
pub struct Pending {
    // The bytes, and behind them those that the next ones are written over.
    room: Vec<u8>,
    len: usize,
}

impl Model for Pending {
    ghost use Rattle.std.specs.Prelude.{List, ℕ, ◌≤◌, length, take};

    ghost Value = { List ℕ };

    ghost view = { λ pending. take pending.len pending.room.items };

    ghost invariant = { λ pending. pending.len ≤ length pending.room.items };
}

impl Pending {
    /// No bytes.
    pub fn new(alloc: Global) -> Pending
        ensures { result ≡ [] }
    {
        Pending {
            room: Vec::new(alloc),
            len: 0,
        }
    }

    /// Makes room for more bytes and adds these, if it can: not where there is as much room as there may be, no memory for
    /// more, or too many bytes. Then nothing is added.
    pub fn add_grown(&mut self, bytes: &[u8]) -> bool
        ensures added { OnTrue result (self.new ≡ self.old ++ bytes.now) }
        ensures full { OnFalse result (self.new ≡ self.old) }
    {
        self.grow() && self.add(bytes)
    }

    /// Makes room for twice as many bytes, and answers whether it did.
    fn grow(&mut self) -> bool
        ensures { self.new ≡ self.old }
    {
        let had = self.room.len();
        if had >= MOST_ROOM {
            return false;
        }
        let more = if had == 0 { FIRST_ROOM } else { 2 * had };
        self.room.resize(more, 0).is_ok()
    }

    /// The bytes.
    pub fn as_slice(&self) -> &[u8]
        ensures { result.now ≡ self.now }
    {
        &self.room.as_slice()[..self.len]
    }

    /// Adds bytes, and answers whether there was room for them; if there wasn't, nothing is added.
    #[inline(always)]
    pub fn add(&mut self, bytes: &[u8]) -> bool
        ensures added { OnTrue result (self.new ≡ self.old ++ bytes.now) }
        ensures full { OnFalse result (self.new ≡ self.old) }
    {
        let room = self.room.as_mut_slice();
        if bytes.len() > room.len() - self.len {
            return false;
        }
        write_bytes(room, self.len, bytes);
        self.len += bytes.len();
        true
    }

    /// Adds a byte, and answers whether there was room for it; if there wasn't, nothing is added.
    #[inline(always)]
    pub fn add_byte(&mut self, byte: u8) -> bool
        ensures added { OnTrue result (self.new ≡ self.old ++ byte ∷ []) }
        ensures full { OnFalse result (self.new ≡ self.old) }
    {
        let room = self.room.as_mut_slice();
        if self.len >= room.len() {
            return false;
        }
        room[self.len] = byte;
        self.len += 1;
        true
    }

    /// Adds a word, and answers whether there was room for it; if there wasn't, nothing is added.
    #[inline(always)]
    pub fn add_word<const N: usize>(&mut self, word: &[u8; N]) -> bool
        ensures added { OnTrue result (self.new ≡ self.old ++ word.now) }
        ensures full { OnFalse result (self.new ≡ self.old) }
    {
        let room = self.room.as_mut_slice();
        if N > room.len() - self.len {
            return false;
        }
        write_word(room, self.len, word);
        self.len += N;
        true
    }

    /// Adds a word, two names with a dot between them, and another word, and answers whether it did: not where a name is
    /// long, or there may be too little room. Then nothing is added. That there is room is asked once for all of them.
    #[inline(always)]
    pub fn add_member<const N: usize, const M: usize>(
        &mut self,
        before: &[u8; N],
        object: &[u8],
        member: &[u8],
        behind: &[u8; M],
    ) -> bool
        requires few { (N ≤ 16) × (M ≤ 16) }
        ensures added { OnTrue result (self.new
            ≡ self.old ++ before.now ++ object.now ++ codes "." ++ member.now ++ behind.now) }
        ensures full { OnFalse result (self.new ≡ self.old) }
    {
        if object.len() > SHORT || member.len() > SHORT {
            return false;
        }
        let room = self.room.as_mut_slice();
        if room.len() - self.len < N + M + 2 * SHORT + 1 {
            return false;
        }
        self.len = write_member(room, self.len, before, object, member, behind);
        true
    }

    /// Keeps none any more.
    pub fn clear(&mut self)
        ensures { self.new ≡ [] }
    {
        self.len = 0;
    }
}

/// Writes a word over the bytes from a place on. Its length is known where it is called, so this is a store or two.
#[inline(always)]
fn write_word<const N: usize>(room: &mut [u8], at: usize, word: &[u8; N])
    requires { at + N ≤ length room.old }
    ensures len { length room.new ≡ length room.old }
    ensures written { take (at + N) room.new ≡ take at room.old ++ word.now }
{
    for i in 0..N {
        room[at + i] = word[i];
    }
}

/// Writes a word, two names with a dot between them, and another word over the bytes from a place on: the place behind them.
#[inline(always)]
fn write_member<const N: usize, const M: usize>(
    room: &mut [u8],
    at: usize,
    before: &[u8; N],
    object: &[u8],
    member: &[u8],
    behind: &[u8; M],
) -> usize
    requires { at + N + length object.now + 1 + length member.now + M ≤ length room.old }
    ensures within { result ≤ length room.new }
    ensures len { length room.new ≡ length room.old }
    ensures written { take result room.new
        ≡ take at room.old ++ before.now ++ object.now ++ codes "." ++ member.now ++ behind.now }
{
    write_word(room, at, before);
    let object_at = at + N;
    write_bytes(room, object_at, object);
    let dot_at = object_at + object.len();
    write_word(room, dot_at, b".");
    let member_at = dot_at + 1;
    write_bytes(room, member_at, member);
    let behind_at = member_at + member.len();
    write_word(room, behind_at, behind);
    behind_at + M
}

/// Writes bytes over those from a place on. Names are short, and most are two words that meet or overlap.
#[inline(always)]
fn write_bytes(room: &mut [u8], at: usize, bytes: &[u8])
    requires { at + length bytes.now ≤ length room.old }
    ensures len { length room.new ≡ length room.old }
    ensures written { take (at + length bytes.now) room.new ≡ take at room.old ++ bytes.now }
{
    let len = bytes.len();
    if len >= 8 && len <= 16 {
        write_ends::<8>(room, at, bytes);
    } else if len >= 4 && len < 8 {
        write_ends::<4>(room, at, bytes);
    } else if len == 2 || len == 3 {
        write_ends::<2>(room, at, bytes);
    } else if len == 1 {
        write_ends::<1>(room, at, bytes);
    } else {
        room[at..at + len].copy_from_slice(bytes);
    }
}

/// Writes bytes over those from a place on, by a word at their front and one at their end.
#[inline(always)]
fn write_ends<const N: usize>(room: &mut [u8], at: usize, bytes: &[u8])
    requires two_words { (N ≤ length bytes.now) × (length bytes.now ≤ N + N) }
    requires fits { at + length bytes.now ≤ length room.old }
    ensures len { length room.new ≡ length room.old }
    ensures written { take (at + length bytes.now) room.new ≡ take at room.old ++ bytes.now }
{
    let Some(front) = bytes.first_chunk::<N>() else {
        return;
    };
    let Some(end) = bytes.last_chunk::<N>() else {
        return;
    };
    let (front, end) = (*front, *end);
    write_word(room, at, &front);
    write_word(room, at + bytes.len() - N, &end);
}
