//! Bytes, as a person is shown them.

use std::alloc::AllocError;
use std::fmt;

/// The characters of bytes: a blank for a tab, and `?` for what steers a terminal and for each byte that is part of no
/// character.
#[derive(Clone, Copy)]
pub struct Printed<'a>(pub &'a [u8]);

impl fmt::Display for Printed<'_> {
    fn fmt<W: fmt::Write>(&self, f: &mut fmt::Formatter<W>) -> fmt::Result {
        for chunk in self.0.utf8_chunks() {
            for character in chunk.valid().chars() {
                let character = shown(character);
                write!(f, "{character}")?;
            }
            for _ in chunk.invalid() {
                write!(f, "?")?;
            }
        }
        Ok(())
    }
}

/// The character, as it is shown.
fn shown(character: char) -> char {
    match character {
        '\t' => ' ',
        '\0'..='\x1f' | '\x7f'..='\u{9f}' => '?',
        // What turns the direction of writing, or has no width.
        '\u{61c}' | '\u{200b}'..='\u{200f}' | '\u{2028}'..='\u{202e}' => '?',
        '\u{2060}'..='\u{2069}' | '\u{feff}' => '?',
        _ => character,
    }
}

/// Adds the bytes, as a person is shown them.
pub fn push_printed(text: &mut String, bytes: &[u8]) -> Result<(), AllocError> {
    let bytes = Printed(bytes);
    write!(text, "{bytes}")
}

/// Adds the lines of the bytes, as a person is shown them: their ends stay, without what a return puts before them.
pub fn push_printed_lines(text: &mut String, bytes: &[u8]) -> Result<(), AllocError> {
    for line in bytes.split_inclusive(|byte| *byte == b'\n') {
        match line.strip_suffix(b"\n".as_slice()) {
            Some(line) => {
                push_printed(text, line.strip_suffix(b"\r".as_slice()).unwrap_or(line))?;
                text.push('\n')?;
            }
            None => push_printed(text, line)?,
        }
    }
    Ok(())
}
