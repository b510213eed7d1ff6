//! Sets of classes, in words of 64 bits.

ghost use Rattle.std.specs.Prelude.{ℕ, ◌≡◌, ◌↔◌, ◌<◌, [], false, length, replicate, slice_index_or, IsTrue, IfOk, MatchOption};
ghost use Rattle.std.specs.List.{Contains};
ghost use Rattle.class_sets.specs.Marks.{IsMarked, Marks, IsWithin};
ghost use Rattle.class_sets.specs.Words.{JoinsTo};

use sqlite_items::Items;
use std::alloc::{AllocError, Global};
use std::marker::Model;

/// Of how many classes a word tells.
const BITS: usize = 64;

/// A set of classes, by their numbers: a bit for each of the first classes, in words of 64.
pub struct ClassSet {
    words: Items<u64>,
    room: usize,
}

impl Drop for ClassSet {
    fn drop(self) {
        let ClassSet { words: _, room: _ } = self;
    }
}

impl Model for ClassSet {
    ghost use Rattle.std.specs.Prelude.{List, Bool, ◌≤◌, ◌*◌, length};
    ghost use Rattle.class_sets.specs.declared.class_set.TheConstants.{BITS};
    ghost use Rattle.class_sets.specs.Words.{marks_of};

    ghost Value = { List Bool };

    ghost view = { λ set. marks_of set.words set.room };

    ghost invariant = { λ set. set.room ≤ length set.words * BITS };
}

impl ClassSet {
    /// No class, and room for none: it takes no memory.
    pub fn empty(alloc: Global) -> ClassSet
        ensures { result ≡ [] }
    {
        ClassSet {
            words: Items::new(alloc),
            room: 0,
        }
    }

    /// No class, with room for so many; its error is that memory was refused.
    pub fn with_room(alloc: Global, room: usize) -> Result<ClassSet, AllocError>
        ensures { IfOk result (λ set. set ≡ replicate room false) }
    {
        let mut words = Vec::new(alloc);
        words.resize(room / BITS + 1, 0)?;
        let words = Items::from_vec(words);
        Ok(ClassSet { words, room })
    }

    /// For how many classes there is room.
    #[inline(always)]
    pub fn room(&self) -> usize
        ensures { result ≡ length self.now }
    {
        self.room
    }

    /// The same set; its error is that memory was refused.
    pub fn copy(&self, alloc: Global) -> Result<ClassSet, AllocError>
        ensures { IfOk result (λ copy. copy ≡ self.now) }
    {
        let words = Items::from_slice(alloc, self.words.as_slice())?;
        let room = self.room;
        Ok(ClassSet { words, room })
    }

    /// Whether the class is in the set.
    #[inline(always)]
    pub fn contains(&self, class: usize) -> bool
        ensures { IsTrue result ↔ IsMarked self.now class }
    {
        if class >= self.room {
            return false;
        }
        (self.words.as_slice()[class / BITS] >> (class % BITS) as u32) & 1 == 1
    }

    /// Adds the class, for which there is room.
    pub fn add(&mut self, class: usize)
        requires { class < length self.old }
        ensures { Marks (λ d. d ≡ class) self.old self.new }
    {
        let word = self.words.as_slice()[class / BITS];
        self.words
            .set(class / BITS, word | (1 << (class % BITS) as u32));
    }

    /// Adds the classes, for which there is room.
    pub fn add_all(&mut self, classes: &[usize])
        requires { (d : ℕ) → Contains classes.now d → d < length self.old }
        ensures { Marks (Contains classes.now) self.old self.new }
    {
        for class in classes {
            self.add(*class);
        }
    }

    /// Adds the classes of the other set, which has room for as many. Time is linear in the set's words.
    pub fn join(&mut self, other: &ClassSet)
        requires { length other.now ≡ length self.old }
        ensures { Marks (IsMarked other.now) self.old self.new }
    {
        join_words(&mut self.words, &other.words);
    }

    /// The first class of the set that isn't in the other one. Time is linear in the set's words, and, where one is found, in
    /// the classes that there is room for.
    #[inline(always)]
    pub fn first_lost(&self, other: &ClassSet) -> Option<usize>
        ensures { MatchOption result (IsWithin self.now other.now)
            (λ d. IsMarked self.now d × (IsMarked other.now d → ⊥)) }
    {
        if self.has_no_more_bits(other) {
            return None;
        }
        for class in 0..self.room {
            if self.contains(class) && !other.contains(class) {
                return Some(class);
            }
        }
        None
    }

    /// Whether each word's bits are among those of the other set's word.
    #[inline(always)]
    fn has_no_more_bits(&self, other: &ClassSet) -> bool
        ensures { IsTrue result → IsWithin self.now other.now }
    {
        if self.room > other.room {
            return false;
        }
        for (place, word) in self.words.as_slice().iter().enumerate() {
            let there = word_at(&other.words, place);
            if *word | there != there {
                return false;
            }
        }
        true
    }
}

/// Adds to each word the bits of the other set's word at its place.
#[inline(always)]
fn join_words(words: &mut Items<u64>, more: &Items<u64>)
    ensures { JoinsTo (length words.old) more.now words.old words.new }
{
    for place in 0..words.len() {
        let word = word_at(words, place) | word_at(more, place);
        words.set(place, word);
    }
}

/// The word at this place, or none of its bits past the last one.
#[inline(always)]
fn word_at(words: &Items<u64>, place: usize) -> u64
    ensures { result ≡ slice_index_or words.now place 0 }
{
    match words.get(place) {
        Some(word) => *word,
        None => 0,
    }
}
