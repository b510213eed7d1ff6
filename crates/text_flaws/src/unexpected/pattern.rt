//! Patterns of tokens around an unexpected token.
//!
//! A pattern is words with blanks between them: what comes before the unexpected token, `^`, and what comes from it on. In front
//! of ` .. ` it may say with which token the innermost part begins in which the unexpected token is. A word is a token as it
//! is spelled, or one of several with `/` between them, or a kind of tokens: `$name`, `$word` (a reserved word),
//! `$number`, `$text`, `$any`, `$tail` (a name right behind the token before it), `$path` (`this` or a name, and names
//! behind dots or arrows, as far as they go), `$end` (the end of the text).

use crate::unexpected::source::TokenizedText;
use crate::unexpected::unexpected::Unexpected;
use texts::{Symbol, Token};

/// Whether the tokens around an unexpected token are of this pattern.
pub fn fits(pattern: &str, unexpected: Unexpected) -> bool {
    let (head, around) = match pattern.split_once(" .. ") {
        Some((head, around)) => (head, around),
        None => ("", pattern),
    };
    let is_headed = head.is_empty() || is_one_of(unexpected.source, unexpected.head(), head);
    is_headed && fits_around(around, unexpected)
}

/// Whether the tokens right in front of an unexpected token, and those from it on, are of this pattern.
fn fits_around(around: &str, unexpected: Unexpected) -> bool {
    let Some((front, from)) = around.split_once('^') else {
        return false;
    };
    let behind = front.split_whitespace().count();
    if behind > unexpected.at {
        return false;
    }
    match after_words(unexpected.source, unexpected.at - behind, front) {
        Some(at) => after_words(unexpected.source, at, from).is_some(),
        None => false,
    }
}

/// What follows the words, if they fit the tokens from this one on.
fn after_words(source: TokenizedText, at: usize, words: &str) -> Option<usize> {
    let mut at = at;
    for word in words.split_whitespace() {
        at = after(source, at, word)?;
    }
    Some(at)
}

/// The token with which what fits the word of this number behind `^` begins, counted from 0, or what follows them.
pub fn start_of(pattern: &str, unexpected: Unexpected, number: usize) -> usize {
    let from = match pattern.split_once('^') {
        Some((_, from)) => from,
        None => "",
    };
    let mut at = unexpected.at;
    let mut left = number;
    for word in from.split_whitespace().take(number) {
        at = after(unexpected.source, at, word).unwrap_or(at);
        left = left.saturating_sub(1);
    }
    at.saturating_add(left)
}

/// What follows the word, if it fits the tokens from this one on.
fn after(source: TokenizedText, at: usize, word: &str) -> Option<usize> {
    if word == "$path" {
        return after_path(source, at);
    }
    if is_one_of(source, at, word) {
        Some(at.saturating_add(1))
    } else {
        None
    }
}

/// What follows the path that begins with this token.
fn after_path(source: TokenizedText, at: usize) -> Option<usize> {
    if !is_one_of(source, at, "$name/this") {
        return None;
    }
    let left = source.tokens.len().saturating_sub(at) / 2;
    let steps = (0..left).take_while(|step| {
        let dot = at.saturating_add(step.saturating_mul(2)).saturating_add(1);
        let is_step = source.is(dot, Symbol::Dot) || source.is(dot, Symbol::Arrow);
        is_step && source.is_name(dot.saturating_add(1))
    });
    Some(
        at.saturating_add(steps.count().saturating_mul(2))
            .saturating_add(1),
    )
}

/// Whether the token is one of these.
fn is_one_of(source: TokenizedText, at: usize, word: &str) -> bool {
    word.split('/').any(|one| is(source, at, one))
}

/// Whether the token is this one, or of this kind.
fn is(source: TokenizedText, at: usize, one: &str) -> bool {
    match (one, source.token(at)) {
        ("$end", token) => token.is_none(),
        (_, None) => false,
        ("$any", Some(_)) => true,
        ("$name", Some(token)) => matches!(token, Token::Name(_)),
        ("$word", Some(token)) => matches!(token, Token::Word(_)),
        ("$number", Some(token)) => matches!(token, Token::Number(_)),
        ("$text", Some(token)) => matches!(token, Token::Text(_)),
        ("$tail", Some(token)) => matches!(token, Token::Name(_)) && source.is_joined(at),
        (one, Some(_)) => source.spelled(at) == one.as_bytes(),
    }
}
