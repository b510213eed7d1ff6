//! Operators between operands: how they are spelled, and how tight they bind.

ghost use Rattle.std.specs.Prelude.{◌≡◌, ◌<◌, false, length, OnSome};
ghost use Rattle.slot_lang.specs.code.Levels.{precedence_at};
ghost use Rattle.slot_lang.specs.Precedence.{symbol_of, precedence_of};
ghost use Rattle.slot_lang.specs.code.Precedence.{NoOperator, IsOperatorOf, IsNextOperator, TakesOperator};

use syntax_trees::Binary;
use texts::{Symbol, Token};
use token_reading::{Cursor, Wanted};

/// How tight an operator binds, the loosest first.
#[derive(Clone, Copy, Debug, PartialEq, Eq)]
pub enum Precedence {
    /// `||`
    Or,
    /// `&&`
    And,
    /// `==`, `!=`, `<`, `<=`, `>` and `>=`
    Comparison,
    /// `+` and `-`
    Sum,
    /// `*`
    Term,
}

/// Comparisons.
const COMPARISONS: [Wanted; 6] = [
    Wanted::Symbol(Symbol::Equal),
    Wanted::Symbol(Symbol::Unequal),
    Wanted::Symbol(Symbol::Less),
    Wanted::Symbol(Symbol::AtMost),
    Wanted::Symbol(Symbol::Greater),
    Wanted::Symbol(Symbol::AtLeast),
];

impl Precedence {
    /// The operators that bind so tight, as they are looked for.
    fn wanted(self) -> &'static [Wanted] {
        match self {
            Precedence::Or => &[Wanted::Symbol(Symbol::Or)],
            Precedence::And => &[Wanted::Symbol(Symbol::And)],
            Precedence::Comparison => &COMPARISONS,
            Precedence::Sum => &[Wanted::Symbol(Symbol::Plus), Wanted::Symbol(Symbol::Minus)],
            Precedence::Term => &[Wanted::Symbol(Symbol::Star)],
        }
    }
}

/// The operators that group to the left, by how tight they bind, the loosest first.
#[derive(Clone, Copy, Debug, PartialEq, Eq)]
pub enum Level {
    /// `||`
    Or,
    /// `&&`
    And,
    /// `+` and `-`
    Sum,
    /// `*`
    Term,
}

impl Level {
    /// How tight they bind.
    pub fn precedence(self) -> Precedence
        ensures { result ≡ precedence_at self }
    {
        match self {
            Level::Or => Precedence::Or,
            Level::And => Precedence::And,
            Level::Sum => Precedence::Sum,
            Level::Term => Precedence::Term,
        }
    }
}

/// How the operator is spelled.
#[inline(always)]
fn symbol_of(binary: Binary) -> Symbol
    ensures { result ≡ symbol_of binary }
{
    match binary {
        Binary::Add => Symbol::Plus,
        Binary::Subtract => Symbol::Minus,
        Binary::Multiply => Symbol::Star,
        Binary::Less => Symbol::Less,
        Binary::AtMost => Symbol::AtMost,
        Binary::Greater => Symbol::Greater,
        Binary::AtLeast => Symbol::AtLeast,
        Binary::Equal => Symbol::Equal,
        Binary::Different => Symbol::Unequal,
        Binary::And => Symbol::And,
        Binary::Or => Symbol::Or,
    }
}

/// The operator that is spelled so.
#[inline(always)]
fn operator_of(symbol: Symbol) -> Option<Binary>
    ensures { IsOperatorOf symbol result }
{
    match symbol {
        Symbol::Plus => Some(Binary::Add),
        Symbol::Minus => Some(Binary::Subtract),
        Symbol::Star => Some(Binary::Multiply),
        Symbol::Less => Some(Binary::Less),
        Symbol::AtMost => Some(Binary::AtMost),
        Symbol::Greater => Some(Binary::Greater),
        Symbol::AtLeast => Some(Binary::AtLeast),
        Symbol::Equal => Some(Binary::Equal),
        Symbol::Unequal => Some(Binary::Different),
        Symbol::And => Some(Binary::And),
        Symbol::Or => Some(Binary::Or),
        _ => None,
    }
}

/// How tight the operator binds.
#[inline(always)]
fn precedence_of(binary: Binary) -> Precedence
    ensures { result ≡ precedence_of binary }
{
    match binary {
        Binary::Or => Precedence::Or,
        Binary::And => Precedence::And,
        Binary::Add => Precedence::Sum,
        Binary::Subtract => Precedence::Sum,
        Binary::Multiply => Precedence::Term,
        _ => Precedence::Comparison,
    }
}

/// Whether an operator that binds so tight comes next.
#[inline(always)]
pub fn is_operator_next(cursor: &mut Cursor, precedence: Precedence) -> bool
    ensures same { cursor.new ≡ cursor.old }
    ensures none { result ≡ false → NoOperator precedence cursor.old }
{
    match next_operator(cursor.ahead(precedence.wanted())) {
        Some(binary) => precedence_of(binary) == precedence,
        None => false,
    }
}

/// Takes the operator that binds so tight, if one comes next.
pub fn operator(cursor: &mut Cursor, precedence: Precedence) -> Option<Binary>
    ensures found { TakesOperator precedence cursor.old result cursor.new }
    ensures shorter { OnSome result (length cursor.new < length cursor.old) }
{
    let Some(binary) = next_operator(cursor.ahead(precedence.wanted())) else {
        return None;
    };
    if precedence_of(binary) == precedence && cursor.eat(symbol_of(binary)) {
        Some(binary)
    } else {
        None
    }
}

/// The operator with which the tokens begin.
#[inline(always)]
fn next_operator(tokens: &[Token]) -> Option<Binary>
    ensures { IsNextOperator tokens.now result }
{
    match tokens.split_first() {
        Some((Token::Symbol(symbol), _)) => operator_of(*symbol),
        _ => None,
    }
}
