//! What is wrong with a text behind its first flaw: a reader goes on at the next declaration, or in the next line.

use crate::bytes::bad_byte;
use crate::lines::script_flaw;
use crate::parts::whole;
use crate::unexpected::{TokenizedText, Unexpected};
use class_lang::{Limits, TextFault, program_trail, read_within};
use diagnostics::{Flaw, placed_or_none, tokens_or_none};
use script_lang::{ScriptFault, read_script};
use std::alloc::{AllocError, Global};
use texts::{PlaceFault, PlacedToken, Symbol, Token, Word, placed_tokens, split_line};

/// The flaws behind the first one of a program that is refused for the reason of this number, so many at most: of each later
/// declaration that isn't in the grammar (5) the first token that can't stand where it does; of each later line in which a byte
/// begins no token (4) that byte. None for other reasons.
pub fn further_program_flaws(
    alloc: Global,
    text: &[u8],
    number: u8,
    most: usize,
) -> Result<Vec<Flaw>, AllocError> {
    match number {
        4 => further_bytes(alloc, text, most),
        5 => further_unexpected(alloc, text, most),
        _ => Ok(Vec::new(alloc)),
    }
}

/// How lines of other texts begin.
const OTHER_TEXTS: [&[u8]; 5] = [b"class ", b"wire ", b"owns ", b"certificate ", b"settling "];

/// What is wrong with the lines of a script behind this one, counted from 1, so many at most; nothing behind what is of another text.
pub fn further_script_flaws(
    alloc: Global,
    text: &[u8],
    line: usize,
    most: usize,
) -> Result<Vec<Flaw>, AllocError> {
    let mut flaws = Vec::new(alloc);
    let mut line = line;
    for _ in 0..most {
        let bad = behind_lines(text, line.saturating_sub(1)).trim_ascii_start();
        if OTHER_TEXTS
            .iter()
            .any(|front: &&[u8]| bad.starts_with(*front))
        {
            break;
        }
        match read_script(alloc, behind_lines(text, line)) {
            Err(ScriptFault::BadLine(more)) => line = line.saturating_add(more),
            Err(ScriptFault::Memory) => return Err(AllocError),
            _ => break,
        }
        if let Some(flaw) = script_flaw(alloc, text, line)? {
            flaws.push(flaw)?;
        }
    }
    Ok(flaws)
}

/// The text behind its first so many lines.
fn behind_lines(text: &[u8], lines: usize) -> &[u8] {
    let mut left = text;
    for _ in 0..lines {
        match split_line(left) {
            Some((_, rest)) => left = rest,
            None => break,
        }
    }
    left
}

/// The bytes that begin no token in lines behind the first one that has one.
fn further_bytes(alloc: Global, text: &[u8], most: usize) -> Result<Vec<Flaw>, AllocError> {
    let mut flaws = Vec::new(alloc);
    let mut begin = 0usize;
    for count in 0..=most {
        let left = text.get(begin..).unwrap_or(&[]);
        let at = match placed_tokens(alloc, left) {
            Ok(_) => break,
            Err(PlaceFault::BadByte(at)) => at,
            Err(PlaceFault::Memory) => return Err(AllocError),
        };
        let place = begin.saturating_add(at);
        if count > 0 {
            flaws.push(bad_byte(alloc, text, place)?)?;
        }
        match behind_line(left.get(at..).unwrap_or(&[])) {
            Some(length) => begin = place.saturating_add(length),
            None => break,
        }
    }
    Ok(flaws)
}

/// How many bytes there are up to the next line, where more of such a text can be told apart: not behind what begins a comment of
/// several lines, a quote that isn't closed, or a text in another encoding.
fn behind_line(left: &[u8]) -> Option<usize> {
    match left {
        [b'/', b'*', ..] | [b'"' | 0 | 0xfe | 0xff, ..] => None,
        _ => Some(left.iter().take_while(|byte| **byte != b'\n').count()),
    }
}

/// The tokens that can't stand where they do in declarations behind the first one that has one.
fn further_unexpected(alloc: Global, text: &[u8], most: usize) -> Result<Vec<Flaw>, AllocError> {
    let placed = placed_or_none(alloc, text)?;
    let tokens = tokens_or_none(alloc, text)?;
    let mut flaws = Vec::new(alloc);
    let mut begin = 0usize;
    for count in 0..=most {
        if is_read(alloc, text, placed.as_slice().get(begin))? {
            break;
        }
        let left = tokens.as_slice().get(begin..).unwrap_or(&[]);
        let trail = whole(program_trail(alloc, left))?;
        let source = TokenizedText {
            text,
            tokens: placed.as_slice().get(begin..).unwrap_or(&[]),
        };
        let unexpected = Unexpected::new(source, &trail);
        // A brace that stands in no declaration may close what was passed over.
        let is_closing = source.is(unexpected.at, Symbol::CloseBrace);
        if count > 0 && !(is_closing && unexpected.wants_word(Word::Wire)) {
            flaws.push(unexpected.flaw(alloc)?)?;
        }
        match next_declaration(source, unexpected.at) {
            Some(at) => begin = begin.saturating_add(at),
            None => break,
        }
    }
    Ok(flaws)
}

/// Whether the text is in the grammar from this token on.
fn is_read(alloc: Global, text: &[u8], token: Option<&PlacedToken>) -> Result<bool, AllocError> {
    let begin = match token {
        Some(placed) => placed.at,
        None => text.len(),
    };
    match read_within(alloc, Limits::wide(), text.get(begin..).unwrap_or(&[])) {
        Err(TextFault::Syntax) => Ok(false),
        Err(TextFault::Memory) => Err(AllocError),
        _ => Ok(true),
    }
}

/// The token, from this one on and behind the first, with which a declaration begins: its word stands first in a line, or behind
/// what ends another one.
fn next_declaration(source: TokenizedText, from: usize) -> Option<usize> {
    (from.max(1)..source.tokens.len()).find(|at| begins_declaration(source, *at))
}

/// Whether a declaration begins with the token.
fn begins_declaration(source: TokenizedText, at: usize) -> bool {
    let before = at.saturating_sub(1);
    let is_word = matches!(
        source.token(at),
        Some(Token::Word(Word::Class | Word::Wire | Word::Owns | Word::Binding))
    );
    let is_behind = source.is(before, Symbol::CloseBrace) || source.is(before, Symbol::Semicolon);
    is_word && (is_behind || is_first_in_line(source, before, at))
}

/// Whether a line ends between the two tokens.
fn is_first_in_line(source: TokenizedText, before: usize, at: usize) -> bool {
    let begin = match source.tokens.get(before) {
        Some(PlacedToken { end, .. }) => *end,
        None => 0,
    };
    let between = source.text.get(begin..source.place(at)).unwrap_or(&[]);
    between.contains(&b'\n')
}
