//! Expressions, one function a rule.

ghost use Rattle.std.specs.Prelude.{◌≡◌, ◌<◌, ◌≤◌, length, IfOk, OnOk, Err};
ghost use Rattle.slot_lang.specs.Expressions.{Expression, IsExpr, OneExpression, spell_expression, tree_of_expression, spell_factor, tree_of_factor, spell_group};
ghost use Rattle.slot_lang.specs.code.Expressions.{EndsExpression, EndsFactor, ReadsExpression, ReadsComparison, ReadsPrefixed, ReadsPathFrom, Closes};
ghost use Rattle.slot_lang.specs.code.Levels.{ReadsChain, ReadsOperand, GoesOn};
ghost use Rattle.slot_lang.specs.declared.precedence.Level.TheVariants.{And, Sum, Term};
ghost use Rattle.token_reading.specs.code.Reading.{Reads, EndsAnywhere};
ghost use Rattle.token_reading.specs.declared.fault.ParseFault.TheVariants.{Syntax};
ghost use Rattle.syntax_trees.specs.declared.syntax.Expr.{Expr};
ghost use Rattle.syntax_trees.specs.declared.syntax.Expr.TheVariants as tree;
ghost use Rattle.syntax_trees.specs.declared.syntax.Path.{Path};

use crate::path::names;
use crate::precedence::{Level, Precedence, is_operator_next, operator};
use basic_types::Word;
use sqlite_items::Boxed;
use std::alloc::{AllocError, Global};
use syntax_trees::{Binary, Expr, Path, Root, Unary};
use texts::{Symbol, Token};
use token_reading::{Cursor, GREATEST, ParseFault, Part, Wanted, unsigned_literal};

/// What an operand begins with, besides `this`.
const OPERAND: [Wanted; 9] = [
    Wanted::Name,
    Wanted::Number(GREATEST),
    Wanted::Text,
    Wanted::Word(Word::True),
    Wanted::Word(Word::False),
    Wanted::Word(Word::Null),
    Wanted::Symbol(Symbol::Open),
    Wanted::Symbol(Symbol::Not),
    Wanted::Symbol(Symbol::Minus),
];

/// Reads an expression, which all of the tokens are. A number in it is at most 2147483647, and a text has at most 255
/// bytes.
///
/// `Syntax` where the tokens aren't an expression, and only there; `Memory` where a growth of memory was refused.
pub fn parse_expr(alloc: Global, tokens: &[Token]) -> Result<Expr<Path>, ParseFault>
    ensures read { IfOk result (λ e. IsExpr tokens.now e) }
    ensures refused { result ≡ Err Syntax → (e : Expr Path) → IsExpr tokens.now e → ⊥ }
{
    let mut cursor = Cursor::new(alloc, tokens);
    let expression = expression(&mut cursor)?;
    if cursor.is_empty() {
        Ok(expression)
    } else {
        Err(ParseFault::Syntax)
    }
}

/// Tokens are an expression in at most one way.
pub fn one_expression()
    ensures { OneExpression }
{}

/// Takes the expression that has to come next.
///
/// `Syntax` where the tokens begin with no expression, and only there; `Memory` where a growth of memory was refused.
#[cycle(expression)]
pub fn expression(cursor: &mut Cursor) -> Result<Expr<Path>, ParseFault>
    ensures reads { ReadsExpression cursor.old result cursor.new }
    ensures shorter { OnOk result (length cursor.new < length cursor.old) }
{
    let first = conjunction(cursor)?;
    go_on(cursor, Level::Or, first)
}

/// `cmp {"&&" cmp}`
#[cycle(expression)]
#[inline(always)]
fn conjunction(cursor: &mut Cursor) -> Result<Expr<Path>, ParseFault>
    ensures reads { ReadsChain And cursor.old result cursor.new }
    ensures shorter { OnOk result (length cursor.new < length cursor.old) }
{
    let first = comparison(cursor)?;
    go_on(cursor, Level::And, first)
}

/// Two operands with an operator between them, or one: comparisons don't chain.
#[cycle(expression)]
#[inline(always)]
fn comparison(cursor: &mut Cursor) -> Result<Expr<Path>, ParseFault>
    ensures reads { ReadsComparison cursor.old result cursor.new }
    ensures shorter { OnOk result (length cursor.new < length cursor.old) }
{
    let left = sum(cursor)?;
    match operator(cursor, Precedence::Comparison) {
        Some(operator) => {
            let right = sum(cursor)?;
            let compared = binary(cursor.alloc(), operator, left, right)?;
            Ok(compared)
        }
        None => Ok(left),
    }
}

/// `term {("+" | "-") term}`
#[cycle(expression)]
#[inline(always)]
fn sum(cursor: &mut Cursor) -> Result<Expr<Path>, ParseFault>
    ensures reads { ReadsChain Sum cursor.old result cursor.new }
    ensures shorter { OnOk result (length cursor.new < length cursor.old) }
{
    let first = term(cursor)?;
    go_on(cursor, Level::Sum, first)
}

/// `factor {"*" factor}`
#[cycle(expression)]
#[inline(always)]
fn term(cursor: &mut Cursor) -> Result<Expr<Path>, ParseFault>
    ensures reads { ReadsChain Term cursor.old result cursor.new }
    ensures shorter { OnOk result (length cursor.new < length cursor.old) }
{
    let first = factor(cursor)?;
    go_on(cursor, Level::Term, first)
}

/// The first operand, or what it is with the operators of the level that follow it. Most often none does.
#[cycle(expression)]
#[inline(always)]
fn go_on(cursor: &mut Cursor, level: Level, first: Expr<Path>) -> Result<Expr<Path>, ParseFault>
    ensures reads { GoesOn level first cursor.old result cursor.new }
    ensures no_longer { OnOk result (length cursor.new ≤ length cursor.old) }
{
    if is_operator_next(cursor, level.precedence()) {
        chain(cursor, level, first)
    } else {
        Ok(first)
    }
}

/// `{operator operand}`, behind the first operand; it groups to the left.
#[cycle(expression)]
fn chain(cursor: &mut Cursor, level: Level, first: Expr<Path>) -> Result<Expr<Path>, ParseFault>
    ensures reads { GoesOn level first cursor.old result cursor.new }
    ensures no_longer { OnOk result (length cursor.new ≤ length cursor.old) }
{
    let mut left = first;
    while let Some(operator) = operator(cursor, level.precedence()) {
        let right = operand(cursor, level)?;
        left = binary(cursor.alloc(), operator, left, right)?;
    }
    Ok(left)
}

/// What stands between the operators of the level.
#[cycle(expression)]
fn operand(cursor: &mut Cursor, level: Level) -> Result<Expr<Path>, ParseFault>
    ensures reads { ReadsOperand level cursor.old result cursor.new }
    ensures shorter { OnOk result (length cursor.new < length cursor.old) }
{
    match level {
        Level::Or => conjunction(cursor),
        Level::And => comparison(cursor),
        Level::Sum => term(cursor),
        Level::Term => factor(cursor),
    }
}

#[cycle(expression)]
fn factor(cursor: &mut Cursor) -> Result<Expr<Path>, ParseFault>
    ensures reads { Reads spell_factor tree_of_factor EndsFactor cursor.old result cursor.new }
    ensures shorter { OnOk result (length cursor.new < length cursor.old) }
{
    if cursor.eat_word(Word::This) {
        return path_from(cursor, Root::This);
    }
    let token = cursor.next_of(&OPERAND)?;
    match token {
        Token::Symbol(symbol) => match symbol {
            Symbol::Not => prefixed(cursor, Unary::Not),
            Symbol::Minus => prefixed(cursor, Unary::Minus),
            Symbol::Open => group(cursor),
            _ => Err(ParseFault::Syntax),
        },
        Token::Name(name) => {
            let root = name.copy()?;
            path_from(cursor, Root::Name(root))
        }
        _ => {
            let literal = unsigned_literal(token)?;
            Ok(Expr::Literal(literal.into_value()))
        }
    }
}

/// What follows an operator in front of its operand.
#[cycle(expression)]
fn prefixed(cursor: &mut Cursor, operator: Unary) -> Result<Expr<Path>, ParseFault>
    ensures reads { ReadsPrefixed operator cursor.old result cursor.new }
    ensures shorter { OnOk result (length cursor.new < length cursor.old) }
{
    let operand = factor(cursor)?;
    let operand = Boxed::new(cursor.alloc(), operand)?;
    Ok(Expr::Unary(operator, operand))
}

/// What follows an opening parenthesis.
#[cycle(expression)]
pub fn group(cursor: &mut Cursor) -> Result<Expr<Path>, ParseFault>
    ensures reads { Reads spell_group tree_of_expression EndsAnywhere cursor.old result cursor.new }
    ensures shorter { OnOk result (length cursor.new < length cursor.old) }
{
    let inner = expression(cursor)?;
    close(cursor, inner)
}

/// Gives the tree back, if a closing parenthesis comes next.
fn close(cursor: &mut Cursor, inner: Expr<Path>) -> Result<Expr<Path>, ParseFault>
    ensures found { Closes inner cursor.old result cursor.new }
    ensures shorter { OnOk result (length cursor.new < length cursor.old) }
{
    cursor.expect(Symbol::Close)?;
    Ok(inner)
}

/// The path that goes on from the root.
fn path_from(cursor: &mut Cursor, root: Root) -> Result<Expr<Path>, ParseFault>
    ensures reads { ReadsPathFrom root cursor.old result cursor.new }
    ensures no_longer { OnOk result (length cursor.new ≤ length cursor.old) }
{
    let properties = names(cursor)?;
    Ok(Expr::Path(Path { root, properties }))
}

/// The operator between its operands.
fn binary(
    alloc: Global,
    operator: Binary,
    left: Expr<Path>,
    right: Expr<Path>,
) -> Result<Expr<Path>, AllocError>
    ensures { IfOk result (λ e. e ≡ tree.Binary operator left right) }
{
    let left = Boxed::new(alloc, left)?;
    let right = Boxed::new(alloc, right)?;
    Ok(Expr::Binary(operator, left, right))
}

/// An expression, as a part of a list.
pub struct Argument;

impl Part for Argument {
    type Tree = Expr<Path>;

    ghost Reading = { Expression };

    ghost spell = { spell_expression };

    ghost tree = { tree_of_expression };

    ghost Ends = { EndsExpression };

    fn read(cursor: &mut Cursor) -> Result<Expr<Path>, ParseFault> {
        expression(cursor)
    }
}
