//! Texts between quotes that seem to have escapes, which this language doesn't have.

use crate::placed::PlacedText;
use diagnostics::{Flaw, Severity, TextKind, placed_or_none, text_spans};
use std::alloc::{AllocError, Global};
use texts::Token;

/// How many texts the input of a checked run has, of which the last one is a script.
const TEXTS_OF_RUN: usize = 3;

/// Adds a warning on the first text between quotes that seems to have an escape, of the input's program, and of its script.
pub fn push_escapes(text: &mut String, alloc: Global, input: &[u8]) -> Result<(), AllocError> {
    if !input.contains(&b'\\') {
        return Ok(());
    }
    push_escape(
        text,
        alloc,
        PlacedText::of(alloc, input, TextKind::Program)?,
    )?;
    if text_spans(alloc, input)?.len() == TEXTS_OF_RUN {
        push_escape(text, alloc, PlacedText::of(alloc, input, TextKind::Script)?)?;
    }
    Ok(())
}

/// Adds a warning on the first one in this text of the input.
fn push_escape(text: &mut String, alloc: Global, placed: PlacedText<'_>) -> Result<(), AllocError> {
    let source = placed.source();
    let tokens = placed_or_none(alloc, source)?;
    for token in tokens.as_slice() {
        if let Token::Text(_) = &token.token
            && let Some(inner) = escape_in(source.get(token.at..token.end).unwrap_or(&[]))
        {
            let flaw = Flaw {
                at: token.at.saturating_add(inner),
                sentence: String::from_str(
                    alloc,
                    "a text has no escapes: this `\\` stands for itself",
                )?,
                advice: None,
            };
            return placed.push(text, Severity::Warning, &flaw);
        }
    }
    Ok(())
}

/// Where what would be an escape in C++ begins among these bytes, if it does.
fn escape_in(bytes: &[u8]) -> Option<usize> {
    (0..bytes.len()).find(|at| begins_escape(bytes.get(*at..).unwrap_or(&[])))
}

/// Whether the bytes begin with what would be an escape in C++.
fn begins_escape(bytes: &[u8]) -> bool {
    matches!(
        bytes,
        [b'\\', b'n' | b't' | b'r' | b'0' | b'x' | b'u' | b'\\', ..]
    )
}
