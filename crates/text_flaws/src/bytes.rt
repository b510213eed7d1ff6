//! Bytes that begin no token, and what to write instead.

use basic_types::is_text_byte;
use diagnostics::{Flaw, Printed};
use std::alloc::{AllocError, Global};
use std::fmt;

macro_rules! habits {
    ($($front:literal => $advice:literal;)*) => {
        &[$(($front, $advice),)*]
    };
}

/// What to write in place of what begins with these bytes; the first that fits counts.
const HABITS: &[(&[u8], &str)] = habits! {
    b"/*" => "there are no comments `/* */`: write `//` in each line";
    b"/" => "there is no division; `//` begins a comment";
    b"'" => "texts stand in `\"`";
    b"`" => "texts stand in `\"`";
    b"#" => "a comment begins with `//`, and there is no `#include` and no other directive";
    b"%%" => "a line `%%` that parts texts has no blank and no carriage return beside it";
    b"%" => "there is no `%`; a line `%%` that parts texts has no blank and no carriage return beside it";
    b"|" => "the truth value is joined by `||`";
    b"[" => "there are no lists, and no functions in bodies";
    b"]" => "there are no lists";
    b"?" => "there is no `?`: in a body write `if`";
    b"\\" => "there are no escapes";
    b"^" => "there are no operators on bits";
    b"@" => "leave the `@` out: each property, signal and slot can be found by its name";
    b"\xef\xbb\xbf" => "save the text without a byte order mark";
    b"\xff\xfe" => "the text is in UTF-16: save it as UTF-8";
    b"\xfe\xff" => "the text is in UTF-16: save it as UTF-8";
    b"\0" => "the text is in UTF-16 or the like: save it as UTF-8";
};

/// What is wrong at this byte of a text, with which no token begins.
pub fn bad_byte(alloc: Global, text: &[u8], at: usize) -> Result<Flaw, AllocError> {
    let left = text.get(at..).unwrap_or(&[]);
    if let Some((b'"', inner)) = left.split_first() {
        return bad_text(alloc, text, at, inner);
    }
    let first = Character(left);
    let sentence = format!(in alloc; "no token begins with {first}")?;
    Flaw::with_advice(alloc, at, sentence, advice(left))
}

/// What to write in place of what begins with these bytes.
fn advice(left: &[u8]) -> Option<&'static str> {
    for (front, advice) in HABITS {
        if left.starts_with(front) {
            return Some(*advice);
        }
    }
    match left {
        [128..=255, ..] => Some("texts are ASCII: other characters stand in comments alone"),
        _ => None,
    }
}

/// What is wrong with a text that begins at this byte with its quote, and goes on so.
fn bad_text(alloc: Global, text: &[u8], at: usize, inner: &[u8]) -> Result<Flaw, AllocError> {
    let held = inner.iter().take_while(|byte| is_text_byte(**byte)).count();
    let left = inner.get(held..).unwrap_or(&[]);
    match left {
        [] | [b'\n' | b'\r', ..] => {
            let sentence = String::from_str(
                alloc,
                "the text that begins here isn't closed in its line",
            )?;
            Flaw::with_advice(alloc, at, sentence, Some(advice_on_quotes(text, at)))
        }
        _ => {
            let first = Character(left);
            let sentence = format!(in alloc; "a text doesn't hold {first}")?;
            let advice = "texts are ASCII, and hold the characters from blank to `~` alone";
            let place = at.saturating_add(held).saturating_add(1);
            Flaw::with_advice(alloc, place, sentence, Some(advice))
        }
    }
}

/// What to write where a text that begins at this byte isn't closed.
fn advice_on_quotes(text: &[u8], at: usize) -> &'static str {
    if is_behind_escape(text, at) {
        "a text has no escapes: a `\\` in it stands for itself, and the `\"` behind it closes the text"
    } else {
        "a text is closed by `\"` in its line, without escapes, and holds the characters from blank to `~` alone"
    }
}

/// Whether `\"` stands in front of this byte in its line.
fn is_behind_escape(text: &[u8], at: usize) -> bool {
    let mut behind = b'\n';
    for byte in text.get(..at).unwrap_or(&[]).iter().rev() {
        match (*byte, behind) {
            (b'\n', _) => return false,
            (b'\\', b'"') => return true,
            (other, _) => behind = other,
        }
    }
    false
}

/// The character with which bytes begin, with its number where it isn't ASCII, or the byte.
#[derive(Clone, Copy)]
struct Character<'a>(&'a [u8]);

impl Character<'_> {
    /// The character; `None` where the bytes begin with none.
    fn decoded(self) -> Option<char> {
        let chunk = self.0.utf8_chunks().next()?;
        chunk.valid().chars().next()
    }
}

impl fmt::Display for Character<'_> {
    fn fmt<W: fmt::Write>(&self, f: &mut fmt::Formatter<W>) -> fmt::Result {
        match self.decoded() {
            Some('\u{feff}') => write!(f, "a byte order mark (U+FEFF)"),
            Some(character @ '!'..='~') => write!(f, "`{character}`"),
            Some(character) if !character.is_ascii() => {
                let number = u32::from(character);
                let shown = Printed(self.0.get(..character.len_utf8()).unwrap_or(&[]));
                write!(f, "`{shown}` (U+{number:04X})")
            }
            _ => match self.0.first() {
                Some(byte) => write!(f, "the byte {byte}"),
                None => Ok(()),
            },
        }
    }
}
