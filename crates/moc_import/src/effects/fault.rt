//! What is wrong with a line of effects.

use crate::classes::push_plain;
use std::alloc::{AllocError, AllocFailed, Global};

/// What is wrong with how a line of effects is written.
#[derive(Clone, Copy)]
pub enum LineFault<'e> {
    NoSlot,
    Unclosed,
    NoType,
    NoVerb(&'e str),
    NoName,
    NoPath(&'e str),
    TooMuch,
    Memory,
}

/// What is wrong with a line of effects, and what would be right.
#[derive(Drop)]
pub enum EffectFault {
    /// What a person is told of it.
    Told(String),
    Memory,
}

impl<'e> LineFault<'e> {
    /// The parts of what a person is told of it.
    pub fn parts(self) -> [&'e str; 3] {
        match self {
            LineFault::NoSlot => ["a line begins with a class and a slot, ", SHOWN_SLOTS, ""],
            LineFault::Unclosed => ["a `)` is missing", "", ""],
            LineFault::NoType => ["a type is missing", "", ""],
            LineFault::NoVerb(word) => ["`", word, WANTED_VERB],
            LineFault::NoName => ["a name is missing at the end", "", ""],
            LineFault::NoPath(word) => ["`", word, WANTED_PATH],
            LineFault::TooMuch => ["a line names at most 4096 things", "", ""],
            LineFault::Memory => ["out of memory", "", ""],
        }
    }
}

const SHOWN_SLOTS: &str = "as `Lamp.toggle()` or `Lamp.dim(int)`";

const WANTED_VERB: &str = "` can't stand here: wanted is `emits`, `sets`, `calls` or `deletes`";

const WANTED_PATH: &str = "` can't stand here: wanted is a name, or names with a `.` between them";

impl EffectFault {
    /// The fault of which these parts tell, one after another.
    pub fn of(alloc: Global, parts: &[&str]) -> EffectFault {
        match told(alloc, parts) {
            Ok(text) => EffectFault::Told(text),
            Err(AllocError) => EffectFault::Memory,
        }
    }

    /// The fault that what has this name is something that isn't wanted.
    pub fn of_name(alloc: Global, name: &str, what: &str) -> EffectFault {
        EffectFault::of(alloc, &["`", name, "` is ", what])
    }
}

/// The parts, one after another, as a person is shown them.
fn told(alloc: Global, parts: &[&str]) -> Result<String, AllocError> {
    let mut text = String::new(alloc);
    for part in parts {
        push_plain(&mut text, part)?;
    }
    Ok(text)
}

impl From<AllocError> for EffectFault {
    fn from(_: AllocError) -> EffectFault {
        EffectFault::Memory
    }
}

impl From<AllocError> for LineFault<'_> {
    fn from(_: AllocError) -> Self {
        LineFault::Memory
    }
}

impl<T: Drop> From<AllocFailed<T>> for LineFault<'_> {
    fn from(_: AllocFailed<T>) -> Self {
        LineFault::Memory
    }
}
