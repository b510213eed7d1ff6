//! The lifelines of a diagram.

use crate::diagrams::message::push_message;
use indexmap::IndexMap;
use std::alloc::{AllocError, Global};

/// The number of the script's own lifeline. Objects have those from 1 on, in the order in which they are met.
pub const SCRIPT: usize = 0;

/// The lifelines of a diagram's objects, by the objects' names.
#[derive(Drop)]
pub struct Lifelines<'t> {
    numbers: IndexMap<&'t [u8], usize>,
}

impl<'t> Lifelines<'t> {
    /// No object has one yet.
    pub fn new(alloc: Global) -> Lifelines<'t> {
        Lifelines {
            numbers: IndexMap::new(alloc),
        }
    }

    /// The number of an object's lifeline, which it gets where it has none.
    pub fn of(&mut self, name: &'t [u8]) -> Result<usize, AllocError> {
        if let Some(number) = self.numbers.get(name) {
            return Ok(*number);
        }
        let number = self.numbers.len().saturating_add(1);
        self.numbers.insert(name, number)?;
        Ok(number)
    }

    /// Adds the lines that declare them all. They are named by numbers, since an object may have a word of the language as its
    /// name.
    pub fn declare(&self, text: &mut String) -> Result<(), AllocError> {
        write!(text, "    actor o{SCRIPT} as script\n")?;
        for (name, number) in self.numbers.iter() {
            write!(text, "    participant o{number} as ")?;
            push_message(text, *name)?;
            text.push_str("\n")?;
        }
        Ok(())
    }
}
