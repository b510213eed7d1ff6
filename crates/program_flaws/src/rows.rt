//! Where the rows of a certificate's text begin: its lines that have tokens.

use diagnostics::{TextPlace, placed_or_none};
use rank_check::{Cause, Extra, Loose, Mistake};
use std::alloc::{AllocError, Global};

/// So many rows stand before those of nodes: the version's and the bound's.
const SETTINGS: usize = 2;

/// The row of the bound, from 0.
const BOUND_ROW: usize = 1;

/// Where the row of the certificate begins that breaks a condition; its first one where none does.
pub fn cause_place(alloc: Global, text: &[u8], cause: Cause) -> Result<TextPlace, AllocError> {
    let line = match cause {
        Cause::Extra(Extra::Unknown(line) | Extra::Class(line, _) | Extra::Twice(_, line)) => line,
        Cause::Edge(rise) => rise.from.line,
        Cause::Destroys(Mistake::Unclosed(at, _) | Mistake::Own(at) | Mistake::Lost(at, _, _)) =>
            at.line,
        Cause::Bound(Loose::NotAbove(line)) => line,
        Cause::Bound(Loose::TooGreat) => return row_place(alloc, text, BOUND_ROW),
        Cause::Missing(_) | Cause::Wire(_) | Cause::BodyType(_) | Cause::Memory => {
            return row_place(alloc, text, 0);
        }
    };
    line_place(alloc, text, line)
}

/// Where the node's line of this place begins.
pub fn line_place(alloc: Global, text: &[u8], line: usize) -> Result<TextPlace, AllocError> {
    row_place(alloc, text, line.saturating_add(SETTINGS))
}

/// Where the row of this number begins, from 0.
fn row_place(alloc: Global, text: &[u8], row: usize) -> Result<TextPlace, AllocError> {
    let placed = placed_or_none(alloc, text)?;
    let mut rows = 0usize;
    let mut end = 0usize;
    for token in placed.as_slice() {
        let is_first = end == 0 || text.get(end..token.at).unwrap_or(&[]).contains(&b'\n');
        if is_first {
            if rows == row {
                return Ok(TextPlace::of(text, token.at.min(text.len())));
            }
            rows = rows.saturating_add(1);
        }
        end = token.end;
    }
    Ok(TextPlace { line: 1, column: 1 })
}
