//! The texts of an input, which lines `%%` part (docs/commands.md, "The input").

ghost use Rattle.std.specs.Prelude.{◌≤◌, All, length, IfOk};

use std::alloc::{AllocError, Global};
use texts::split_line;

/// The line that parts texts.
pub const PARTING: &[u8] = b"%%";

/// From where to where a text goes.
#[derive(Clone, Copy, Debug, PartialEq, Eq)]
pub struct Span {
    /// Its first byte, counted from 0.
    pub begin: usize,
    /// What follows its last byte.
    pub end: usize,
}

/// The texts of an input, in their order.
pub fn text_spans(alloc: Global, input: &[u8]) -> Result<Vec<Span>, AllocError>
    ensures { IfOk result (λ spans. All (λ s. s.end ≤ length input.now) spans.items) }
{
    let mut spans = Vec::new(alloc);
    let mut begin = 0;
    let mut left = input;
    while let Some((line, rest)) = split_line(left) {
        let end = input.len() - left.len();
        if line == PARTING {
            spans.push(Span { begin, end })?;
            begin = input.len() - rest.len();
        }
        left = rest;
    }
    let end = input.len();
    spans.push(Span { begin, end })?;
    Ok(spans)
}
