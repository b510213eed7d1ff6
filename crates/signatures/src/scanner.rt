//! A cursor over a signature's bytes, which contracts see as the words and marks that are left.

ghost use Rattle.std.specs.Prelude.{◌≡◌, ◌↔◌, IsTrue};
ghost use Rattle.basic_types.specs.Name.{is_name_byte};
ghost use Rattle.basic_types.specs.Signatures.{IsPart};
ghost use Rattle.basic_types.specs.Tokens.{mark as mark_token, mark_of, tokens_of, IsRunBy};
ghost use Rattle.signatures.specs.code.Scanning.{token_of, TakesNext};

use basic_types::{Mark, is_blank, is_name_byte};
use std::marker::Model;

/// A word or a mark.
#[derive(Drop)]
pub enum Scanned<'a> {
    /// The longest run of letters and digits.
    Word(&'a [u8]),
    /// Any other byte that isn't blank.
    Mark(Mark),
}

impl<'a> Scanned<'a> {
    /// Whether it may stand between the brackets: no bracket, and no byte that no signature has.
    pub fn is_part(&self) -> bool
        ensures { IsTrue result ↔ IsPart (token_of self.now) }
    {
        match self {
            Scanned::Word(_) => true,
            Scanned::Mark(mark) => match mark {
                Mark::Comma | Mark::Ampersand | Mark::Star => true,
                Mark::Open | Mark::Close | Mark::Other => false,
            },
        }
    }

    /// Whether it is this mark.
    pub fn is_mark(&self, mark: Mark) -> bool
        ensures { IsTrue result ↔ (token_of self.now ≡ mark_token mark) }
    {
        match self {
            Scanned::Word(_) => false,
            Scanned::Mark(found) => *found == mark,
        }
    }
}

/// What is left of a text.
#[derive(Drop)]
pub struct Scanner<'a> {
    rest: &'a [u8],
}

impl<'a> Model for Scanner<'a> {
    ghost use Rattle.std.specs.Prelude.{List};
    ghost use Rattle.basic_types.specs.Tokens.{Token, tokens_of};

    ghost Value = { List Token };

    ghost view = { λ scanner. tokens_of scanner.rest.now };
}

impl<'a> Scanner<'a> {
    /// At the start of the bytes.
    pub fn new(bytes: &'a [u8]) -> Scanner<'a>
        ensures { result ≡ tokens_of bytes.now }
    {
        Scanner { rest: bytes }
    }

    /// Another one at the same place.
    pub fn copy(&self) -> Scanner<'a>
        ensures { result ≡ self.now }
    {
        Scanner { rest: self.rest }
    }

    /// The next word or mark.
    pub fn next(&mut self) -> Option<Scanned<'a>>
        ensures { TakesNext self.old result self.new }
    {
        let mut rest = self.rest;
        while let Some((first, after)) = rest.split_first() {
            if is_name_byte(*first) {
                let (word, after) = split_word(rest);
                self.rest = after;
                return Some(Scanned::Word(word));
            }
            if !is_blank(*first) {
                self.rest = after;
                return Some(Scanned::Mark(mark_of(*first)));
            }
            rest = after;
        }
        self.rest = rest;
        None
    }
}

/// The mark that the byte is.
fn mark_of(byte: u8) -> Mark
    ensures { result ≡ mark_of byte }
{
    match byte {
        b'(' => Mark::Open,
        b')' => Mark::Close,
        b',' => Mark::Comma,
        b'&' => Mark::Ampersand,
        b'*' => Mark::Star,
        _ => Mark::Other,
    }
}

/// The letters and digits at the front of the bytes, and what follows them.
fn split_word(bytes: &[u8]) -> (&[u8], &[u8])
    ensures { IsRunBy is_name_byte bytes.now result.0.now result.1.now }
{
    let mut len = 0;
    while len < bytes.len() && is_name_byte(bytes[len]) {
        len += 1;
    }
    bytes.split_at(len)
}
