//! A text of an input, of whose places something is said.

use diagnostics::{Flaw, Severity, Span, TextKind, TextLine, push_flaw, text_spans};
use std::alloc::{AllocError, Global};

/// A text of an input.
#[derive(Clone, Copy)]
pub struct PlacedText<'i> {
    input: &'i [u8],
    kind: TextKind,
    span: Span,
}

impl<'i> PlacedText<'i> {
    /// The text of this kind; all of an input that hasn't so many texts.
    pub fn of(
        alloc: Global,
        input: &'i [u8],
        kind: TextKind,
    ) -> Result<PlacedText<'i>, AllocError> {
        let spans = text_spans(alloc, input)?;
        let whole = Span {
            begin: 0,
            end: input.len(),
        };
        let span = kind.span(spans.as_slice()).unwrap_or(whole);
        Ok(PlacedText { input, kind, span })
    }

    /// What it has.
    pub fn source(self) -> &'i [u8] {
        self.input
            .get(self.span.begin..self.span.end)
            .unwrap_or(&[])
    }

    /// How many lines of the input stand in front of it.
    pub fn lines_before(self) -> usize {
        let front = self.input.get(..self.span.begin).unwrap_or(&[]);
        front.iter().filter(|byte| **byte == b'\n').count()
    }

    /// The line of it that comes after so many, and that has these bytes; `before` is `lines_before`.
    pub fn line(self, before: usize, after: usize, bytes: &'i [u8]) -> TextLine<'i> {
        let of_text = after.saturating_add(1);
        TextLine {
            kind: self.kind,
            bytes,
            before: 0,
            of_input: before.saturating_add(of_text),
            of_text,
        }
    }

    /// Adds what is wrong with it, with the place in the input and in the text.
    pub fn push(
        self,
        text: &mut String,
        severity: Severity,
        flaw: &Flaw,
    ) -> Result<(), AllocError> {
        push_flaw(text, severity, self.input, self.span, self.kind, flaw)
    }
}

/// The text, if it has something.
pub fn some_text(text: String) -> Option<String> {
    if text.is_empty() { None } else { Some(text) }
}
