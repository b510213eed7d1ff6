//! What slots do whose bodies moc doesn't tell: lines of effects, which a person writes, and the bodies that they give slots.

mod body;
mod fault;
mod line;
mod lookup;
mod methods;
mod near;
mod reading;
mod scanner;
mod signatures;
mod slots;
mod statements;

use crate::classes::{Import, Placed};
use crate::effects::fault::EffectFault;
use crate::effects::line::EffectLine;
use crate::effects::lookup::Lookup;
use crate::effects::slots::slot_of;
use crate::effects::statements::statement;
pub use body::{GivenStatement, GivenValue};
pub use line::{EffectVerb, NumberedLine};
pub use reading::lines;
pub use slots::{added_slots, named_properties};
use std::alloc::{AllocError, Global};

/// So many mistakes are reported: behind the last of these no line is looked at any more.
const MOST_TOLD: usize = 100;

/// What lines of effects give: bodies of slots, and what is wrong with lines.
#[derive(Drop)]
pub struct GivenBodies<'e> {
    bodies: Vec<GivenBody<'e>>,
    mistakes: Vec<LineMistake>,
}

/// What is wrong with a line, and what would be right.
#[derive(Drop)]
pub struct LineMistake {
    /// The line's number, from 1 on.
    pub line: usize,
    pub text: String,
}

/// The body of a slot.
#[derive(Drop)]
struct GivenBody<'e> {
    line: usize,
    /// The slot, by its class and its place among the methods of that.
    class: usize,
    place: usize,
    statements: Vec<GivenStatement<'e>>,
}

impl<'e> GivenBodies<'e> {
    /// The bodies that the lines give what is imported. A line for a class that is read and not imported gives none.
    pub fn of(
        alloc: Global,
        import: &Import<'_>,
        lines: &'e [NumberedLine<'_>],
    ) -> Result<GivenBodies<'e>, AllocError> {
        let mut effects = GivenBodies {
            bodies: Vec::new(alloc),
            mistakes: Vec::new(alloc),
        };
        effects.push_lines(alloc, Lookup { import }, lines)?;
        Ok(effects)
    }

    /// Adds the bodies that the lines give.
    fn push_lines(
        &mut self,
        alloc: Global,
        lookup: Lookup<'_, '_>,
        lines: &'e [NumberedLine<'_>],
    ) -> Result<(), AllocError> {
        for line in lines {
            if self.mistakes.len() >= MOST_TOLD {
                break;
            }
            match &line.read {
                Ok(read) => self.push_line(alloc, lookup, line.number, read)?,
                Err(fault) => self.note(line.number, EffectFault::of(alloc, &fault.parts()))?,
            }
        }
        Ok(())
    }

    /// Whether nothing is wrong with the lines; else not all bodies are there.
    pub fn is_whole(&self) -> bool {
        self.mistakes.is_empty()
    }

    /// What is wrong with the lines, in their order: a hundred mistakes at most.
    pub fn into_mistakes(self) -> Vec<LineMistake> {
        let GivenBodies { bodies, mistakes } = self;
        drop(bodies);
        mistakes
    }

    /// The statements of a slot, by its class and its place among the methods of that, if a line gives them.
    pub fn statements(&self, class: usize, place: usize) -> Option<&[GivenStatement<'e>]> {
        let body = self.body(class, place)?;
        Some(body.statements.as_slice())
    }

    fn body(&self, class: usize, place: usize) -> Option<&GivenBody<'e>> {
        for body in self.bodies.as_slice() {
            if body.class == class && body.place == place {
                return Some(body);
            }
        }
        None
    }

    /// Adds the body that a line gives.
    fn push_line(
        &mut self,
        alloc: Global,
        lookup: Lookup<'_, '_>,
        number: usize,
        line: &'e EffectLine<'_>,
    ) -> Result<(), AllocError> {
        match slot_of(alloc, lookup, line) {
            Ok(Some(slot)) => self.push_body(alloc, lookup, slot, number, line),
            Ok(None) => Ok(()),
            Err(fault) => self.note(number, fault),
        }
    }

    /// Adds the body that a line gives this slot.
    fn push_body(
        &mut self,
        alloc: Global,
        lookup: Lookup<'_, '_>,
        slot: Placed<'_, '_>,
        number: usize,
        line: &'e EffectLine<'_>,
    ) -> Result<(), AllocError> {
        if let Some(first) = self.body(slot.class, slot.place) {
            let first = first.line;
            let text = format!(in alloc; "line {first} has this slot already")?;
            return self.note(number, EffectFault::Told(text));
        }
        let statements = self.statements_of(alloc, lookup, slot, number, line)?;
        self.bodies.push(GivenBody {
            line: number,
            class: slot.class,
            place: slot.place,
            statements,
        })?;
        Ok(())
    }

    /// The statements that a line gives its slot.
    fn statements_of(
        &mut self,
        alloc: Global,
        lookup: Lookup<'_, '_>,
        slot: Placed<'_, '_>,
        number: usize,
        line: &'e EffectLine<'_>,
    ) -> Result<Vec<GivenStatement<'e>>, AllocError> {
        let mut statements = Vec::new(alloc);
        for effect in line.effects.as_slice() {
            if self.mistakes.len() >= MOST_TOLD {
                break;
            }
            match statement(alloc, lookup, slot, effect) {
                Ok(statement) => statements.push(statement)?,
                Err(fault) => self.note(number, fault)?,
            }
        }
        Ok(statements)
    }

    /// Notes what is wrong with a line.
    fn note(&mut self, line: usize, fault: EffectFault) -> Result<(), AllocError> {
        match fault {
            EffectFault::Told(text) => self.mistakes.push(LineMistake { line, text })?,
            EffectFault::Memory => return Err(AllocError),
        }
        Ok(())
    }
}
