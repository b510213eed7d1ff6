//! The sorts of values.

ghost use Rattle.std.specs.Prelude.{◌≡◌};
ghost use Rattle.expressions.specs.Typing.{named_sort, value_sort, unary_sort, binary_sort};

use basic_types::{BOOL, INT, Name, QSTRING, Value};
use syntax_trees::{Binary, Unary};

/// What operators see of a value and of a type.
#[derive(Clone, Copy, Debug, PartialEq, Eq)]
pub enum Sort {
    /// Numbers: `int`.
    Int,
    /// Truth values: `bool`.
    Bool,
    /// Texts: `QString`.
    Text,
    /// References, and null.
    Reference,
}

/// The sort of a value.
pub fn value_sort(value: &Value) -> Sort
    ensures { result ≡ value_sort value.now }
{
    match value {
        Value::Int(_) => Sort::Int,
        Value::Bool(_) => Sort::Bool,
        Value::Text(_) => Sort::Text,
        Value::Ref(_) => Sort::Reference,
    }
}

/// The sort of the value type of this name: `int`, `bool` and `QString` have one.
pub fn named_sort(name: &Name) -> Option<Sort>
    ensures { result ≡ named_sort name.now }
{
    let bytes = name.bytes();
    if bytes == INT {
        Some(Sort::Int)
    } else if bytes == BOOL {
        Some(Sort::Bool)
    } else if bytes == QSTRING {
        Some(Sort::Text)
    } else {
        None
    }
}

/// What a unary operator gives of an operand of this sort; `None` where it doesn't take it.
pub fn unary_sort(operator: Unary, operand: Sort) -> Option<Sort>
    ensures { result ≡ unary_sort operator operand }
{
    match (operator, operand) {
        (Unary::Not, Sort::Bool) => Some(Sort::Bool),
        (Unary::Minus, Sort::Int) => Some(Sort::Int),
        _ => None,
    }
}

/// What a binary operator gives of operands of these sorts; `None` where it doesn't take them.
pub fn binary_sort(operator: Binary, left: Sort, right: Sort) -> Option<Sort>
    ensures { result ≡ binary_sort operator left right }
{
    match (left, right) {
        (Sort::Int, Sort::Int) => numbers_sort(operator),
        (Sort::Bool, Sort::Bool) => truths_sort(operator),
        (Sort::Text, Sort::Text) => texts_sort(operator),
        (Sort::Reference, Sort::Reference) => references_sort(operator),
        _ => None,
    }
}

fn numbers_sort(operator: Binary) -> Option<Sort>
    ensures { result ≡ binary_sort operator Sort.Int Sort.Int }
{
    match operator {
        Binary::Add | Binary::Subtract | Binary::Multiply => Some(Sort::Int),
        Binary::And | Binary::Or => None,
        _ => Some(Sort::Bool),
    }
}

fn truths_sort(operator: Binary) -> Option<Sort>
    ensures { result ≡ binary_sort operator Sort.Bool Sort.Bool }
{
    match operator {
        Binary::And | Binary::Or | Binary::Equal | Binary::Different => Some(Sort::Bool),
        _ => None,
    }
}

fn texts_sort(operator: Binary) -> Option<Sort>
    ensures { result ≡ binary_sort operator Sort.Text Sort.Text }
{
    match operator {
        Binary::Add => Some(Sort::Text),
        Binary::Equal | Binary::Different => Some(Sort::Bool),
        _ => None,
    }
}

fn references_sort(operator: Binary) -> Option<Sort>
    ensures { result ≡ binary_sort operator Sort.Reference Sort.Reference }
{
    match operator {
        Binary::Equal | Binary::Different => Some(Sort::Bool),
        _ => None,
    }
}
