//! What a reader looks for.

use basic_types::Word;
use texts::Symbol;

/// A token that a reader would take, or the end of the tokens.
#[derive(Clone, Copy, Debug, PartialEq, Eq)]
pub enum Wanted {
    /// This reserved word.
    Word(Word),
    /// This symbol.
    Symbol(Symbol),
    /// A name.
    Name,
    /// This name.
    Spelled(&'static [u8]),
    /// A number of at most so much.
    Number(u32),
    /// A text of at most 255 bytes.
    Text,
    /// The first word of an event.
    Verb,
    /// The end of the tokens.
    End,
}

/// What begins a literal without a sign.
pub const LITERAL: [Wanted; 5] = [
    Wanted::Number(2147483647),
    Wanted::Text,
    Wanted::Word(Word::True),
    Wanted::Word(Word::False),
    Wanted::Word(Word::Null),
];
