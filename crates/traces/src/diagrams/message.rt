//! What is written at an arrow or in a note.

use diagnostics::push_printed;
use std::alloc::AllocError;

/// What stands for the end of a line.
const LINE_END: &str = "#10;";

/// Adds bytes of a trace as a message, as a person is shown them. What the diagram's language or a page that shows it would read
/// as its own is written by its code.
pub fn push_message(text: &mut String, bytes: &[u8]) -> Result<(), AllocError> {
    for (place, line) in bytes
        .split(|byte| matches!(*byte, b'\n' | b'\r'))
        .enumerate()
    {
        if place > 0 {
            text.push_str(LINE_END)?;
        }
        push_line(text, line)?;
    }
    Ok(())
}

/// Adds bytes that end no line.
fn push_line(text: &mut String, bytes: &[u8]) -> Result<(), AllocError> {
    let mut message = String::new(*text.allocator());
    push_printed(&mut message, bytes)?;
    for letter in message.as_str().chars() {
        match code_of(letter) {
            Some(code) => text.push_str(code)?,
            None => text.push(letter)?,
        }
    }
    Ok(())
}

/// How a letter is written that means something else. Two `%` begin a comment.
fn code_of(letter: char) -> Option<&'static str> {
    match letter {
        '#' => Some("#35;"),
        ';' => Some("#59;"),
        '%' => Some("#37;"),
        '"' => Some("#quot;"),
        '\'' => Some("#39;"),
        '`' => Some("#96;"),
        '<' => Some("#lt;"),
        '>' => Some("#gt;"),
        '&' => Some("#amp;"),
        _ => None,
    }
}
