//! Bytes that are written as escapes.

use std::alloc::{AllocError, Global};

/// What was read of an escape.
#[derive(Clone, Copy)]
enum Escape {
    /// Nothing.
    No,
    /// Its backslash.
    Begun,
    /// `\x`
    Hex,
    /// `\x` and a digit of this value.
    HexDigit(u8),
}

/// Adds a text in which a backslash begins an escape: `\n` is a newline, `\\` a backslash, `\xNN` the byte with these
/// hexadecimal digits, and `\#` the number in decimal. Answers whether each escape is one of these and whole.
pub fn push_unescaped(
    alloc: Global,
    text: &mut Vec<u8>,
    raw: &[u8],
    number: usize,
) -> Result<bool, AllocError> {
    let mut escape = Escape::No;
    for byte in raw {
        escape = match escape {
            Escape::No if *byte == b'\\' => Escape::Begun,
            Escape::No => {
                text.push(*byte)?;
                Escape::No
            }
            Escape::Begun => match byte {
                b'x' => Escape::Hex,
                b'n' => {
                    text.push(b'\n')?;
                    Escape::No
                }
                b'\\' => {
                    text.push(b'\\')?;
                    Escape::No
                }
                b'#' => {
                    let digits = format!(in alloc; "{number}")?;
                    text.extend_from_slice(digits.as_bytes())?;
                    Escape::No
                }
                _ => return Ok(false),
            },
            Escape::Hex => match digit(*byte) {
                Some(high) => Escape::HexDigit(high),
                None => return Ok(false),
            },
            Escape::HexDigit(high) => match digit(*byte) {
                Some(low) => {
                    text.push((high << 4) | low)?;
                    Escape::No
                }
                None => return Ok(false),
            },
        };
    }
    Ok(matches!(&escape, Escape::No))
}

/// The value of a hexadecimal digit.
fn digit(byte: u8) -> Option<u8> {
    match byte {
        b'0'..=b'9' => Some(byte - b'0'),
        b'a'..=b'f' => Some(byte - b'a' + 10),
        b'A'..=b'F' => Some(byte - b'A' + 10),
        _ => None,
    }
}
