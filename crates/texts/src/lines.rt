//! The lines of a text.

ghost use Rattle.std.specs.Prelude.{◌<◌, length, IfSome};
ghost use Rattle.texts.specs.code.Splitting.{SplitsLine, SplitsAtLine};

use memchr::memchr;

/// What ends a line.
const NEWLINE: u8 = 10;

/// The line at the front of the text, without its newline, and what follows it; `None` where no text is left.
#[inline(always)]
pub fn split_line(text: &[u8]) -> Option<(&[u8], &[u8])>
    ensures line { SplitsLine text.now result }
    ensures shorter { IfSome result (λ parts. length parts.1.now < length text.now) }
{
    if text.is_empty() {
        return None;
    }
    match memchr(NEWLINE, text) {
        Some(at) => Some((&text[..at], &text[at + 1..])),
        None => Some((text, &text[text.len()..])),
    }
}

/// What comes before the first line that is `line`, whole lines, and what follows it; `None` where no line of the text
/// is that one.
pub fn split_at_line<'a>(text: &'a [u8], line: &[u8]) -> Option<(&'a [u8], &'a [u8])>
    ensures { SplitsAtLine line.now text.now result }
{
    let mut left = text;
    while let Some((found, rest)) = split_line(left) {
        if found == line {
            let (front, _) = text.split_at(text.len() - left.len());
            return Some((front, rest));
        }
        left = rest;
    }
    None
}
