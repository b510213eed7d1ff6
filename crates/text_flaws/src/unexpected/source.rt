//! A text with its tokens.

use diagnostics::Printed;
use std::fmt;
use texts::{PlacedToken, Symbol, Token};

/// So many tokens are shown at most.
const MOST_SHOWN: usize = 40;

/// A text, and the tokens that it is cut into.
#[derive(Clone, Copy)]
pub struct TokenizedText<'a> {
    pub text: &'a [u8],
    pub tokens: &'a [PlacedToken],
}

impl<'a> TokenizedText<'a> {
    /// The token of this number, counted from 0; `None` at the end.
    pub fn token(self, number: usize) -> Option<&'a Token> {
        let placed = self.tokens.get(number)?;
        Some(&placed.token)
    }

    /// How it is spelled; nothing at the end.
    pub fn spelled(self, number: usize) -> &'a [u8] {
        match self.tokens.get(number) {
            Some(placed) => self.text.get(placed.at..placed.end).unwrap_or(&[]),
            None => &[],
        }
    }

    /// Whether it is this symbol.
    pub fn is(self, number: usize, symbol: Symbol) -> bool {
        match self.token(number) {
            Some(Token::Symbol(found)) => *found == symbol,
            _ => false,
        }
    }

    /// Whether it is a name.
    pub fn is_name(self, number: usize) -> bool {
        matches!(self.token(number), Some(Token::Name(_)))
    }

    /// The byte at which it begins, or at which the last one ends.
    pub fn place(self, number: usize) -> usize {
        match self.tokens.get(number) {
            Some(placed) => placed.at,
            None => match self.tokens.last() {
                Some(placed) => placed.end,
                None => 0,
            },
        }
    }

    /// Whether the token is parted from the one in front of it.
    fn is_apart(self, number: usize) -> bool {
        match self.tokens.get(number.saturating_sub(1)) {
            Some(before) => before.end < self.place(number),
            None => false,
        }
    }

    /// Whether the token stands right behind the one in front of it.
    pub fn is_joined(self, number: usize) -> bool {
        number > 0 && !self.is_apart(number)
    }

    /// The token, as a person is shown it.
    pub fn shown(self, number: usize) -> Printed<'a> {
        Printed(self.spelled(number))
    }

    /// The tokens from this one up to that one.
    pub fn part(self, from: usize, to: usize) -> ShownTokens<'a> {
        let to = to.min(from.saturating_add(MOST_SHOWN));
        ShownTokens {
            source: self,
            from,
            to,
        }
    }

    /// Where what begins with the token ends: at the next `;`, `{` or `}`, or with the text.
    pub fn end_of(self, number: usize) -> usize {
        let left = self.tokens.get(number..).unwrap_or(&[]);
        let taken = left
            .iter()
            .take_while(|placed| !ends(&placed.token))
            .count();
        number.saturating_add(taken)
    }
}

/// Tokens of a text, as a person is shown them: a blank where there is space between two, and `.` for `->`.
#[derive(Clone, Copy)]
pub struct ShownTokens<'a> {
    source: TokenizedText<'a>,
    from: usize,
    to: usize,
}

impl fmt::Display for ShownTokens<'_> {
    fn fmt<W: fmt::Write>(&self, f: &mut fmt::Formatter<W>) -> fmt::Result {
        for number in self.from..self.to {
            if number > self.from && self.source.is_apart(number) {
                write!(f, " ")?;
            }
            let spelled = if self.source.is(number, Symbol::Arrow) {
                Printed(b".")
            } else {
                self.source.shown(number)
            };
            write!(f, "{spelled}")?;
        }
        Ok(())
    }
}

/// Whether a statement, a declaration or a header ends with the token.
fn ends(token: &Token) -> bool {
    matches!(
        token,
        Token::Symbol(Symbol::Semicolon | Symbol::OpenBrace | Symbol::CloseBrace)
    )
}
