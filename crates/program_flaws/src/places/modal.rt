//! Lines that say of the slot or native which begins there that it runs an event loop until something ends it.

use std::alloc::{AllocError, Global};

/// What such a line ends with.
const MODAL: &[u8] = b"//@ modal";

/// The numbers of the lines, from 1, that end so.
pub fn modal_lines(alloc: Global, text: &[u8]) -> Result<Vec<usize>, AllocError> {
    let mut lines = Vec::new(alloc);
    for (place, line) in text.split(|byte| *byte == b'\n').enumerate() {
        if without_blanks(line).ends_with(MODAL) {
            lines.push(place.saturating_add(1))?;
        }
    }
    Ok(lines)
}

/// The line without the blanks at its end.
fn without_blanks(line: &[u8]) -> &[u8] {
    let mut rest = line;
    for _ in line {
        match rest {
            [before @ .., b' ' | b'\t' | b'\r'] => rest = before,
            _ => break,
        }
    }
    rest
}
