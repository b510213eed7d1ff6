//! How deep a text nests.

ghost use Rattle.std.specs.Prelude.{◌≡◌, ◌≤◌, ◌↔◌, IsTrue};
ghost use Rattle.texts.specs.Nesting.{IsParted, IsTooDeep, most_open, most_together, open_after};
ghost use Rattle.texts.specs.code.Nesting.{StandTogether};

use crate::symbol::Symbol;
use crate::token::Token;

/// How many of `(` and `{` may be open at once.
const MOST_OPEN: u32 = 32;

/// How many tokens may stand together without `;`, `{` or `}`.
const MOST_TOGETHER: u32 = 200;

/// Whether more than 32 of `(` and `{` are open at once, or more than 200 tokens stand together without `;`, `{` or `}`.
/// A closing one takes one off, of whichever kind, but not below none.
pub fn nesting(tokens: &[Token]) -> bool
    ensures { IsTrue result ↔ IsTooDeep tokens.now }
{
    let mut depth = 0;
    let mut together = 0;
    for token in tokens {
        depth = open_after(depth, token);
        together = together_after(together, token);
        if depth > MOST_OPEN || together > MOST_TOGETHER {
            return true;
        }
    }
    false
}

/// How many are open after the token, if so many were before it.
fn open_after(before: u32, token: &Token) -> u32
    requires { before ≤ most_open }
    ensures { result ≡ open_after before token.now }
{
    match token {
        Token::Symbol(symbol) => match symbol {
            Symbol::Open => before + 1,
            Symbol::OpenBrace => before + 1,
            Symbol::Close => before.saturating_sub(1),
            Symbol::CloseBrace => before.saturating_sub(1),
            _ => before,
        },
        _ => before,
    }
}

/// How many tokens stand together at the token's end, if so many did before it.
fn together_after(before: u32, token: &Token) -> u32
    requires { before ≤ most_together }
    ensures { StandTogether before token.now result }
{
    if is_parting(token) { 0 } else { before + 1 }
}

/// Whether it is `;`, `{` or `}`.
fn is_parting(token: &Token) -> bool
    ensures { IsTrue result ↔ IsParted token.now }
{
    match token {
        Token::Symbol(symbol) => {
            *symbol == Symbol::Semicolon
                || *symbol == Symbol::OpenBrace
                || *symbol == Symbol::CloseBrace
        }
        _ => false,
    }
}
