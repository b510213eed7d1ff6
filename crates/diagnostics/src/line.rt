//! Lines with and without tokens.

ghost use Rattle.std.specs.Prelude.{IfOk, IsTrue};
ghost use Rattle.diagnostics.specs.Blank.{IsBlank, TellsTokens};

use basic_types::{is_blank, is_letter};
use std::alloc::{AllocError, Global};
use std::str;
use texts::{LexFault, tokens};

/// Whether there is more in a line than blanks and a comment: of a script's line, whether it has an event.
pub fn has_tokens(alloc: Global, line: &[u8]) -> Result<bool, AllocError>
    ensures { IfOk result (TellsTokens line.now) }
{
    // Most lines with tokens begin with a word, and needn't be cut.
    if begins_with_word(line) {
        return Ok(true);
    }
    match tokens(alloc, line) {
        Ok(tokens) => Ok(!tokens.is_empty()),
        Err(LexFault::BadByte) => Ok(true),
        Err(LexFault::Memory) => Err(AllocError),
    }
}

/// Whether a word or a name begins the line, behind blanks.
fn begins_with_word(line: &[u8]) -> bool
    ensures { IsTrue result → ¬ IsBlank line.now }
{
    let mut rest = line;
    while let Some((first, others)) = rest.split_first() {
        if is_letter(*first) {
            return true;
        }
        if !is_blank(*first) {
            return false;
        }
        rest = others;
    }
    false
}

/// What a text has in front of these words and a number, which end it, without blanks at its ends, and the number.
pub fn number_behind<'t>(text: &'t [u8], words: &str) -> Option<(&'t [u8], u8)> {
    let text = text.trim_ascii();
    let digits = text
        .iter()
        .rev()
        .take_while(|byte| byte.is_ascii_digit())
        .count();
    let at = text.len().checked_sub(digits)?;
    let number = str::from_utf8(text.get(at..)?).ok()?.parse::<u8>().ok()?;
    let front = text
        .get(..at)?
        .trim_ascii_end()
        .strip_suffix(words.as_bytes())?;
    Some((front.trim_ascii_end(), number))
}
