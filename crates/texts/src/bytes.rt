//! What a byte may begin, and runs of bytes.

ghost use Rattle.std.specs.Prelude.{◌≡◌, ◌≤◌, ◌+◌, length};
ghost use Rattle.texts.specs.code.Bytes.{class_of};
ghost use Rattle.texts.specs.Bytes.{belongs, IsRun};

use basic_types::{is_blank, is_digit, is_letter, is_name_byte};

/// What a token that begins with a byte is.
#[derive(Clone, Copy, Debug, PartialEq, Eq)]
pub enum ByteClass {
    /// A blank by itself.
    Blank,
    /// A comment.
    Slash,
    /// A name or a reserved word.
    Letter,
    /// A number.
    Digit,
    /// A text.
    Quote,
    /// A symbol, or nothing.
    Other,
}

/// The bytes that a token goes on with.
#[derive(Clone, Copy, Debug, PartialEq, Eq)]
pub enum Run {
    /// Letters and digits.
    Name,
    /// Digits.
    Number,
    /// What may stand between quotes.
    Text,
    /// What stands before the end of the line.
    Line,
}

/// What a piece of text that begins with the byte is. Most begin with a letter or a blank, so these are looked at first.
#[inline(always)]
pub fn class_of(b: u8) -> ByteClass
    ensures { result ≡ class_of b }
{
    if is_letter(b) {
        ByteClass::Letter
    } else if is_blank(b) {
        ByteClass::Blank
    } else if is_digit(b) {
        ByteClass::Digit
    } else if b == b'/' {
        ByteClass::Slash
    } else if b == b'"' {
        ByteClass::Quote
    } else {
        ByteClass::Other
    }
}

/// Whether the run goes on with the byte.
#[inline(always)]
pub fn belongs(run: Run, b: u8) -> bool
    ensures { result ≡ belongs run b }
{
    match run {
        Run::Name => is_name_byte(b),
        Run::Number => is_digit(b),
        Run::Text => b' ' <= b && b <= b'~' && b != b'"',
        Run::Line => b != b'\n',
    }
}

/// The longest run at the front of the bytes, and what follows it.
#[inline(always)]
pub fn split_run(bytes: &[u8], run: Run) -> (&[u8], &[u8])
    ensures { IsRun run bytes.now result.0.now result.1.now }
{
    let mut len = 0;
    while len < bytes.len() && belongs(run, bytes[len]) {
        len += 1;
    }
    bytes.split_at(len)
}
