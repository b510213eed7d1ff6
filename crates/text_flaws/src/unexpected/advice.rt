//! What to write instead of what can't stand where it does.

use crate::unexpected::habits::{
    Habit, in_declarations, in_expressions, in_lines, in_members, in_statements, of_declarations,
    of_members, of_statements, others,
};
use crate::unexpected::pattern::{fits, start_of};
use crate::unexpected::source::ShownTokens;
use crate::unexpected::unexpected::Unexpected;
use diagnostics::{TextPlace, did_you_mean};
use std::alloc::{AllocError, Global};
use texts::{Symbol, Token, Word};
use token_reading::Wanted;

/// The first words of events.
pub const VERBS: [&[u8]; 15] = [
    b"loop",
    b"turn",
    b"new",
    b"adopt",
    b"move",
    b"connect",
    b"disconnect",
    b"set",
    b"emit",
    b"call",
    b"bind",
    b"block",
    b"unblock",
    b"delete",
    b"later",
];

/// What to write instead, where that is known.
pub fn advice(alloc: Global, unexpected: Unexpected) -> Result<Option<String>, AllocError> {
    if let Some(text) = unclosed(alloc, unexpected)? {
        return Ok(Some(text));
    }
    let tables = [
        in_lines(),
        of_declarations(),
        of_members(),
        in_members(),
        in_declarations(),
        of_statements(),
        in_statements(),
        in_expressions(),
    ];
    for habits in tables {
        if let Some(text) = habit_of(alloc, habits, unexpected)? {
            return Ok(Some(text));
        }
    }
    if let Some(text) = misspelled(alloc, unexpected)? {
        return Ok(Some(text));
    }
    habit_of(alloc, others(), unexpected)
}

/// What the first of these habits says that fits.
fn habit_of(
    alloc: Global,
    habits: &[Habit],
    unexpected: Unexpected,
) -> Result<Option<String>, AllocError> {
    let found = habits.iter().find(|habit| habit.is_at(unexpected)
        && fits(habit.pattern, unexpected));
    let Some(habit) = found else {
        return Ok(None);
    };
    let mut text = String::new(alloc);
    for (number, part) in habit.advice.split('@').enumerate() {
        if number % 2 == 0 {
            text.push_str(part)?;
        } else {
            let part = slot(unexpected, habit.pattern, part);
            write!(&mut text, "{part}")?;
        }
    }
    Ok(Some(text))
}

/// The tokens for which this stands in the words of a habit with this pattern.
fn slot<'a>(unexpected: Unexpected<'a>, pattern: &str, slot: &str) -> ShownTokens<'a> {
    let source = unexpected.source;
    if slot == "part" {
        return source.part(unexpected.head().saturating_add(1), unexpected.at);
    }
    if let Some(number) = slot.strip_suffix("..") {
        let from = start_of(pattern, unexpected, count(number));
        return source.part(from, source.end_of(from));
    }
    if let Some(number) = slot.strip_prefix('-') {
        let from = unexpected.at.saturating_sub(count(number));
        return source.part(from, from.saturating_add(1));
    }
    let number = count(slot);
    let from = start_of(pattern, unexpected, number);
    source.part(
        from,
        start_of(pattern, unexpected, number.saturating_add(1)),
    )
}

/// The number that is written so.
fn count(digits: &str) -> usize {
    digits.parse::<usize>().unwrap_or(0)
}

/// That a brace is missing, where what comes stands outside of what is open, or nothing comes.
fn unclosed(alloc: Global, unexpected: Unexpected) -> Result<Option<String>, AllocError> {
    let source = unexpected.source;
    let in_slot = unexpected.wants_word(Word::Set);
    let is_outside = match source.token(unexpected.at) {
        None => true,
        Some(Token::Word(word)) => match word {
            Word::Property | Word::Signal | Word::Slot | Word::Native => in_slot,
            Word::Class | Word::Wire | Word::Owns | Word::Binding => true,
            _ => false,
        },
        Some(_) => false,
    };
    if !is_outside || !unexpected.wants_symbol(Symbol::CloseBrace) {
        return Ok(None);
    }
    let word = if in_slot { Word::Slot } else { Word::Class };
    let Some(begun) = unexpected.last_begun(&[word]) else {
        return Ok(None);
    };
    let place = source.place(begun).min(source.text.len());
    let line = TextPlace::of(source.text, place).line;
    let (word, name) = (source.shown(begun), source.shown(begun.saturating_add(1)));
    let place = if source.token(unexpected.at).is_some() {
        "before this"
    } else {
        "at the end"
    };
    Ok(Some(format!(in alloc;
        "a `}}` is missing {place}: {word} `{name}` of line {line} isn't closed"
    )?))
}

/// The word that was to be written, where a name differs from one in few letters.
fn misspelled(alloc: Global, unexpected: Unexpected) -> Result<Option<String>, AllocError> {
    if !unexpected.source.is_name(unexpected.at) {
        return Ok(None);
    }
    let words = wanted_words(alloc, unexpected)?;
    let name = unexpected.source.spelled(unexpected.at);
    did_you_mean(alloc, name, words.as_slice())
}

/// The words that could come.
fn wanted_words(alloc: Global, unexpected: Unexpected) -> Result<Vec<&'static [u8]>, AllocError> {
    let mut words = Vec::new(alloc);
    for wanted in unexpected.wanted() {
        push_words(&mut words, *wanted)?;
    }
    Ok(words)
}

/// Adds the words that this stands for.
fn push_words(words: &mut Vec<&'static [u8]>, wanted: Wanted) -> Result<(), AllocError> {
    match wanted {
        Wanted::Word(word) => words.push(word.spelling())?,
        Wanted::Spelled(name) => words.push(name)?,
        Wanted::Verb => words.extend_from_slice(&VERBS)?,
        _ => {}
    }
    Ok(())
}
