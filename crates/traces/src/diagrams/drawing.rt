//! A diagram that is being drawn.

use crate::diagrams::lifelines::{Lifelines, SCRIPT};
use crate::diagrams::message::push_message;
use std::alloc::{AllocError, Global};

/// A kind of arrow.
#[derive(Clone, Copy, Debug, PartialEq, Eq)]
pub enum Arrow {
    /// What happens at once.
    Solid,
    /// What follows from it.
    Dashed,
    /// What waits in an event loop.
    Open,
    /// A death.
    Cross,
}

impl Arrow {
    fn text(self) -> &'static str {
        match self {
            Arrow::Solid => "->>",
            Arrow::Dashed => "-->>",
            Arrow::Open => "--)",
            Arrow::Cross => "-x",
        }
    }
}

/// A diagram that is being drawn, with the lifelines of the activations that are active.
#[derive(Drop)]
pub struct SequenceDrawing<'t> {
    lifelines: Lifelines<'t>,
    messages: String,
    active: Vec<usize>,
}

impl<'t> SequenceDrawing<'t> {
    /// Nothing is drawn yet.
    pub fn new(alloc: Global) -> SequenceDrawing<'t> {
        SequenceDrawing {
            lifelines: Lifelines::new(alloc),
            messages: String::new(alloc),
            active: Vec::new(alloc),
        }
    }

    /// The lifeline of the activation at this depth; the script's own where there is none.
    pub fn at(&self, depth: usize) -> usize {
        match depth.checked_sub(1) {
            Some(place) => *self.active.get(place).unwrap_or(&SCRIPT),
            None => SCRIPT,
        }
    }

    /// An activation of an object begins at this depth: the arrow to it, with this text.
    pub fn begin(
        &mut self,
        depth: usize,
        arrow: Arrow,
        name: &'t [u8],
        text: &[&[u8]],
    ) -> Result<(), AllocError> {
        let from = self.at(depth.saturating_sub(1));
        let to = self.lifelines.of(name)?;
        self.enter(depth, to)?;
        self.message(from, arrow, to, text)
    }

    /// A group begins at this depth, of the object that is active outside.
    pub fn begin_group(&mut self, depth: usize) -> Result<(), AllocError> {
        let lifeline = self.at(depth.saturating_sub(1));
        self.enter(depth, lifeline)?;
        self.note(lifeline, b"group")
    }

    /// The activation at this depth is one of this lifeline.
    fn enter(&mut self, depth: usize, lifeline: usize) -> Result<(), AllocError> {
        let outside = depth.saturating_sub(1);
        self.active.truncate(outside);
        self.active.push(lifeline)?;
        Ok(())
    }

    /// What the activation at this depth brings about elsewhere: an arrow to the object, with this text.
    pub fn reach(
        &mut self,
        depth: usize,
        arrow: Arrow,
        name: &'t [u8],
        text: &[&[u8]],
    ) -> Result<(), AllocError> {
        let from = self.at(depth);
        let to = self.lifelines.of(name)?;
        self.message(from, arrow, to, text)
    }

    /// Nothing is active any more, and the script notes this.
    pub fn restart(&mut self, text: &[u8]) -> Result<(), AllocError> {
        self.active.clear();
        self.note(SCRIPT, text)
    }

    /// Adds an arrow.
    fn message(
        &mut self,
        from: usize,
        arrow: Arrow,
        to: usize,
        text: &[&[u8]],
    ) -> Result<(), AllocError> {
        let arrow = arrow.text();
        write!(self.messages, "    o{from}{arrow}o{to}: ")?;
        for part in text {
            push_message(&mut self.messages, *part)?;
        }
        self.messages.push_str("\n")
    }

    /// Adds a note over a lifeline.
    pub fn note(&mut self, lifeline: usize, text: &[u8]) -> Result<(), AllocError> {
        write!(self.messages, "    Note over o{lifeline}: ")?;
        push_message(&mut self.messages, text)?;
        self.messages.push_str("\n")
    }

    /// The whole diagram.
    pub fn finish(self, alloc: Global) -> Result<String, AllocError> {
        let mut text = String::from_str(alloc, "sequenceDiagram\n")?;
        self.lifelines.declare(&mut text)?;
        text.push_str(self.messages.as_str())?;
        Ok(text)
    }
}
