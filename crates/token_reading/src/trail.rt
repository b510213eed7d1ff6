//! What a recording cursor notes of the way of a reader: where parts of a text begin, and what was looked for where it
//! came farthest.

use crate::wanted::Wanted;
use sqlite_items::Items;
use std::alloc::Global;

/// A part of a program that explanations name.
#[derive(Clone, Copy, Debug, PartialEq, Eq)]
pub enum Landmark {
    /// A class, a wire, an ownership or a binding: its first token says which.
    Declaration,
    /// A property, a signal, a slot or a native of a class: its first token says which.
    Member,
    /// A statement of a slot's body, also one in a block of another one.
    Statement,
}

/// Where a part begins.
#[derive(Clone, Copy, Debug, PartialEq, Eq)]
pub struct Begun {
    /// What begins.
    pub landmark: Landmark,
    /// The number of its first token, counted from 0.
    pub at: usize,
}

/// The way of a reader through tokens. Where memory was refused it isn't whole.
#[derive(Drop)]
pub struct Trail {
    /// What was noted, apart, so that a cursor that doesn't record is small; none where there was no memory for it.
    notes: Option<Box<Notes>>,
}

/// What a trail notes.
#[derive(Drop)]
struct Notes {
    alloc: Global,
    total: usize,
    farthest: usize,
    wanted: Items<Wanted>,
    begun: Items<Begun>,
    is_whole: bool,
}

impl Trail {
    /// The way that begins in front of so many tokens.
    pub(crate) fn new(alloc: Global, total: usize) -> Trail {
        let notes = Notes {
            alloc,
            total,
            farthest: 0,
            wanted: Items::new(alloc),
            begun: Items::new(alloc),
            is_whole: true,
        };
        Trail {
            notes: Box::new(alloc, notes).ok(),
        }
    }

    /// The farthest place at which a token was looked for, by the number of that token, counted from 0; where the reader
    /// stopped, it is the token that it refused, or the end.
    pub fn farthest(&self) -> usize {
        match &self.notes {
            Some(notes) => notes.farthest,
            None => 0,
        }
    }

    /// What was looked for there, in the order of the looking; one thing may stand there twice.
    pub fn wanted(&self) -> &[Wanted] {
        match &self.notes {
            Some(notes) => notes.wanted.as_slice(),
            None => &[],
        }
    }

    /// The parts that were begun, in the text's order.
    pub fn begun(&self) -> &[Begun] {
        match &self.notes {
            Some(notes) => notes.begun.as_slice(),
            None => &[],
        }
    }

    /// Whether all was noted; it wasn't where a growth of memory was refused.
    pub fn is_whole(&self) -> bool {
        match &self.notes {
            Some(notes) => notes.is_whole,
            None => false,
        }
    }

    /// Notes each of what is looked for where so many tokens are left.
    #[cold]
    #[inline(never)]
    fn want_each(&mut self, left: usize, wanted: &[Wanted]) {
        if let Some(notes) = &mut self.notes {
            for one in wanted {
                notes.want(left, *one);
            }
        }
    }

    /// Notes that the part begins where so many tokens are left.
    #[cold]
    #[inline(never)]
    fn begin(&mut self, left: usize, landmark: Landmark) {
        if let Some(notes) = &mut self.notes {
            notes.begin(left, landmark);
        }
    }
}

impl Notes {
    /// Notes what is looked for where so many tokens are left.
    fn want(&mut self, left: usize, wanted: Wanted) {
        let at = self.total.saturating_sub(left);
        if at < self.farthest {
            return;
        }
        if at > self.farthest {
            self.farthest = at;
            self.wanted = Items::new(self.alloc);
        }
        if self.wanted.push(wanted).is_err() {
            self.is_whole = false;
        }
    }

    /// Notes that the part begins where so many tokens are left.
    fn begin(&mut self, left: usize, landmark: Landmark) {
        let at = self.total.saturating_sub(left);
        if self.begun.push(Begun { landmark, at }).is_err() {
            self.is_whole = false;
        }
    }
}

/// Notes what is looked for where so many tokens are left, if there is a trail.
#[inline(always)]
pub fn want(trail: &mut Option<Trail>, left: usize, wanted: Wanted) {
    if let Some(trail) = trail {
        trail.want_each(left, &[wanted]);
    }
}

/// Notes each of what is looked for where so many tokens are left, if there is a trail.
#[inline(always)]
pub fn want_each(trail: &mut Option<Trail>, left: usize, wanted: &[Wanted]) {
    if let Some(trail) = trail {
        trail.want_each(left, wanted);
    }
}

/// Notes that the part begins where so many tokens are left, if there is a trail.
#[inline(always)]
pub fn begin(trail: &mut Option<Trail>, left: usize, landmark: Landmark) {
    if let Some(trail) = trail {
        trail.begin(left, landmark);
    }
}
