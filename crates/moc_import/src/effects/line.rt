//! The lines of a text of effects.

use crate::classes::MocMethod;
use crate::effects::fault::LineFault;

/// A line that isn't empty.
#[derive(Drop)]
pub struct NumberedLine<'e> {
    /// Its number, from 1 on.
    pub number: usize,
    /// What it says, or what is wrong with it.
    pub(crate) read: Result<EffectLine<'e>, LineFault<'e>>,
}

/// A slot, and what it does.
#[derive(Drop)]
pub struct EffectLine<'e> {
    /// The slot's class, as it is named here or in C++.
    pub class: &'e str,
    /// The slot as moc would write it, with parameters that have no names.
    pub slot: MocMethod,
    pub effects: Vec<SlotEffect<'e>>,
}

/// One thing that a slot does.
#[derive(Drop)]
pub struct SlotEffect<'e> {
    pub verb: EffectVerb,
    /// `this`, or names with a `.` between them, of which all but the last one are properties.
    pub path: &'e str,
    /// The types behind a signal or a slot, where it has brackets.
    pub types: Option<Vec<&'e str>>,
}

/// What a slot does to what is named.
#[derive(Clone, Copy)]
pub enum EffectVerb {
    Emits,
    Sets,
    Calls,
    Deletes,
}

impl EffectVerb {
    /// The verb of this word.
    pub fn of(word: &str) -> Option<EffectVerb> {
        match word {
            "emits" => Some(EffectVerb::Emits),
            "sets" => Some(EffectVerb::Sets),
            "calls" => Some(EffectVerb::Calls),
            "deletes" => Some(EffectVerb::Deletes),
            _ => None,
        }
    }

    /// Whether what is named is a method.
    pub fn names_method(self) -> bool {
        matches!(self, EffectVerb::Emits | EffectVerb::Calls)
    }
}

/// A path to a member: the path to its object, and its name.
pub fn split_path(path: &str) -> (&str, &str) {
    match path.rsplit_once('.') {
        Some((front, name)) => (front, name),
        None => ("this", path),
    }
}
