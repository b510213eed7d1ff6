//! The page of a trace, line by line.

use crate::layout::remark;
use crate::pages::escaped::push_escaped;
use crate::pages::frame::{FOOT, HEAD};
use crate::pages::kinds::class_of;
use crate::reading::{Statements, TraceLine};
use std::alloc::{AllocError, Global};

/// The page of a trace, in HTML. Each event has the line of the script that it comes from, where a script is given: that line
/// is found by the event's number. Behind a refusal and a fault is what its number means. The first event that has lines is
/// open. Lines that are none of a trace stand on the page as they are.
pub fn trace_page(alloc: Global, trace: &[u8], script: &[u8]) -> Result<String, AllocError> {
    let mut page = Page::new(alloc, script)?;
    for line in trace.split(|byte| *byte == b'\n') {
        let told = TraceLine::of(line);
        match told {
            Some(TraceLine::Accepted(event) | TraceLine::Refused(event, _)) => {
                page.begin(event, told, line)?
            }
            Some(TraceLine::Fault(_)) => page.add_fault(told, line)?,
            Some(TraceLine::At(depth, kind)) => page.add(depth, class_of(kind), told, line)?,
            None if line.is_empty() => {}
            None => page.add(0, "other", told, line)?,
        }
    }
    page.finish()
}

/// A page that is being written.
#[derive(Drop)]
struct Page<'s> {
    text: String,
    statements: Statements<'s>,
    /// What is to be written of the event that has begun.
    event: EventMarkup<'s>,
    /// Whether an event was written that is open.
    has_open: bool,
}

/// What is to be written of an event.
#[derive(Clone, Copy)]
enum EventMarkup<'s> {
    /// No event has begun that isn't closed.
    None,
    /// Its head, which tells of this event by this line.
    Head(u64, Option<TraceLine>, &'s [u8]),
    /// Its end.
    End,
}

impl<'s> Page<'s> {
    /// Nothing of the trace is written yet.
    fn new(alloc: Global, script: &'s [u8]) -> Result<Page<'s>, AllocError> {
        Ok(Page {
            text: String::from_str(alloc, HEAD)?,
            statements: Statements::of(alloc, script)?,
            event: EventMarkup::None,
            has_open: false,
        })
    }

    /// An event begins, of which this line tells.
    fn begin(
        &mut self,
        event: u64,
        told: Option<TraceLine>,
        line: &'s [u8],
    ) -> Result<(), AllocError> {
        self.close()?;
        self.event = EventMarkup::Head(event, told, line);
        Ok(())
    }

    /// Writes the head of the event that has begun, if it isn't written yet. Of those that have lines the first one is open.
    fn write_head(&mut self, has_lines: bool) -> Result<(), AllocError> {
        let EventMarkup::Head(event, told, line) = self.event else {
            return Ok(());
        };
        let classes = match told {
            Some(TraceLine::Refused(_, _)) => "event refused",
            _ => "event",
        };
        let is_open = has_lines && !self.has_open;
        let open = if is_open { " open" } else { "" };
        write!(self.text, "<details class=\"{classes}\"{open}><summary><b>")?;
        push_escaped(&mut self.text, line)?;
        self.text.push_str("</b>")?;
        if let Some(statement) = self.statements.line(event) {
            self.text.push_str(" <code>")?;
            push_escaped(&mut self.text, statement)?;
            self.text.push_str("</code>")?;
        }
        self.push_remark(told)?;
        self.text.push_str("</summary>\n")?;
        self.has_open |= is_open;
        self.event = EventMarkup::End;
        Ok(())
    }

    /// Closes the event that has begun, if one has.
    fn close(&mut self) -> Result<(), AllocError> {
        self.write_head(false)?;
        if matches!(self.event, EventMarkup::End) {
            self.text.push_str("</details>\n")?;
        }
        self.event = EventMarkup::None;
        Ok(())
    }

    /// Adds a line of this depth and class.
    fn add(
        &mut self,
        depth: u64,
        class: &str,
        told: Option<TraceLine>,
        line: &[u8],
    ) -> Result<(), AllocError> {
        self.write_head(true)?;
        write!(
            self.text,
            "<div class=\"{class}\" style=\"--depth: {depth}\">"
        )?;
        push_escaped(&mut self.text, line)?;
        self.push_remark(told)?;
        self.text.push_str("</div>\n")
    }

    /// Adds a fault. It comes after all events, since the last one that began need not be the one in which it came.
    fn add_fault(&mut self, told: Option<TraceLine>, line: &[u8]) -> Result<(), AllocError> {
        self.close()?;
        self.text.push_str("<p class=\"fault\">")?;
        push_escaped(&mut self.text, line)?;
        self.push_remark(told)?;
        self.text.push_str("</p>\n")
    }

    /// Adds what the number of a refusal or a fault means, where the line tells of one.
    fn push_remark(&mut self, told: Option<TraceLine>) -> Result<(), AllocError> {
        let Some(sentence) = told.and_then(remark) else {
            return Ok(());
        };
        self.text.push_str(" <i>")?;
        push_escaped(&mut self.text, sentence.as_bytes())?;
        self.text.push_str("</i>")
    }

    /// The whole page.
    fn finish(mut self) -> Result<String, AllocError> {
        self.close()?;
        self.text.push_str(FOOT)?;
        Ok(self.text)
    }
}
