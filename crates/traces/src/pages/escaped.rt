//! Text of a page.

use diagnostics::push_printed;
use std::alloc::AllocError;

/// Adds bytes as text of a page, or as a value between quotes, as a person is shown them. What HTML would read as its own is
/// written by its code.
pub fn push_escaped(page: &mut String, bytes: &[u8]) -> Result<(), AllocError> {
    let mut text = String::new(*page.allocator());
    push_printed(&mut text, bytes)?;
    for letter in text.as_str().chars() {
        match code_of(letter) {
            Some(code) => page.push_str(code)?,
            None => page.push(letter)?,
        }
    }
    Ok(())
}

/// How a letter is written that means something else.
fn code_of(letter: char) -> Option<&'static str> {
    match letter {
        '&' => Some("&amp;"),
        '<' => Some("&lt;"),
        '>' => Some("&gt;"),
        '"' => Some("&quot;"),
        _ => None,
    }
}
