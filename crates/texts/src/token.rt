//! Tokens.

use crate::symbol::Symbol;
use basic_types::{Name, SharedBytes, Word};

/// A token of a text.
#[derive(Drop)]
pub enum Token {
    /// A name, which is no reserved word.
    Name(Name),
    /// A reserved word.
    Word(Word),
    /// A number, by its digits; there may be any number of them.
    Number(SharedBytes),
    /// A text, by what stands between its quotes.
    Text(SharedBytes),
    /// A symbol.
    Symbol(Symbol),
}
