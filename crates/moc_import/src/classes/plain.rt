//! Texts of the input in what is written.

use diagnostics::push_printed;
use std::alloc::AllocError;

/// Adds a text of the input to a comment or a sentence, whose line it doesn't end: as a person is shown it.
pub fn push_plain(text: &mut String, part: &str) -> Result<(), AllocError> {
    push_printed(text, part.as_bytes())
}

/// Adds the parts, one after another.
pub fn push_parts(text: &mut String, parts: &[&str]) -> Result<(), AllocError> {
    for part in parts {
        text.push_str(part)?;
    }
    Ok(())
}
