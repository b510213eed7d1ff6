//! What the operators of expressions do.

ghost use Rattle.std.specs.Prelude.{◌≡◌, ◌++◌, take, neg_ℤ, IfOk};
ghost use Rattle.std.specs.Option.{option_map};
ghost use Rattle.std.specs.Int.{saturate_signed, w32};
ghost use Rattle.basic_types.specs.Text.{longest_text};
ghost use Rattle.basic_types.specs.declared.value.Value.{Value as AValue};
ghost use Rattle.basic_types.specs.declared.value.Value.TheVariants as value;
ghost use Rattle.expressions.specs.Operators.{unary, binary, AnswersTexts};
ghost use Rattle.expressions.specs.Evaluation.{Evaluates};

use crate::evaluation::EvalFault;
use basic_types::{LONGEST_TEXT, ObjectId, Text, Value};
use std::alloc::{AllocError, Global};
use syntax_trees::{Binary, Unary};

/// The number with the other sign. The least number has none among 32 bits: it gives the greatest.
pub fn negate(number: i32) -> i32
    ensures { result ≡ saturate_signed w32 (neg_ℤ number) }
{
    number.saturating_neg()
}

/// What a unary operator makes of its operand; `None` where it doesn't take it.
pub fn apply_unary(operator: Unary, operand: &Value) -> Option<Value>
    ensures { result ≡ unary operator operand.now }
{
    match (operator, operand) {
        (Unary::Not, Value::Bool(truth)) => Some(Value::Bool(!*truth)),
        (Unary::Minus, Value::Int(number)) => Some(Value::Int(negate(*number))),
        _ => None,
    }
}

/// The texts joined, of which the first 255 bytes are kept.
pub fn join(alloc: Global, left: &Text, right: &Text) -> Result<Text, AllocError>
    ensures { IfOk result (λ text. text ≡ take longest_text (left.now ++ right.now)) }
{
    let mut bytes = Vec::new(alloc);
    bytes.extend_from_slice(left.bytes())?;
    bytes.extend_from_slice(right.bytes())?;
    bytes.truncate(LONGEST_TEXT);
    let Some(text) = Text::of(alloc, bytes.as_slice())? else {
        unreachable!();
    };
    Ok(text)
}

/// What a binary operator makes of its operands. `BadType` exactly where it doesn't take them; only texts that are
/// joined need memory.
pub fn apply_binary(
    alloc: Global,
    operator: Binary,
    left: &Value,
    right: &Value,
) -> Result<Value, EvalFault>
    ensures value { Evaluates (binary operator left.now right.now) result }
    ensures memory { result ≡ Err EvalFault.Memory → operator ≡ Binary.Add }
{
    let answer = match (left, right) {
        (Value::Int(left), Value::Int(right)) => on_numbers(operator, *left, *right),
        (Value::Bool(left), Value::Bool(right)) => on_truths(operator, *left, *right),
        (Value::Text(left), Value::Text(right)) => on_texts(alloc, operator, left, right)?,
        (Value::Ref(left), Value::Ref(right)) => on_references(operator, *left, *right),
        _ => None,
    };
    answer.ok_or(EvalFault::BadType)
}

fn on_numbers(operator: Binary, left: i32, right: i32) -> Option<Value>
    ensures { result ≡ binary operator (value.Int left) (value.Int right) }
{
    Some(match operator {
        Binary::Add => Value::Int(left.saturating_add(right)),
        Binary::Subtract => Value::Int(left.saturating_sub(right)),
        Binary::Multiply => Value::Int(left.saturating_mul(right)),
        Binary::Less => Value::Bool(left < right),
        Binary::AtMost => Value::Bool(left <= right),
        Binary::Greater => Value::Bool(left > right),
        Binary::AtLeast => Value::Bool(left >= right),
        Binary::Equal => Value::Bool(left == right),
        Binary::Different => Value::Bool(left != right),
        Binary::And | Binary::Or => return None,
    })
}

fn on_truths(operator: Binary, left: bool, right: bool) -> Option<Value>
    ensures { result ≡ binary operator (value.Bool left) (value.Bool right) }
{
    match operator {
        Binary::Equal => Some(Value::Bool(left == right)),
        Binary::Different => Some(Value::Bool(left != right)),
        Binary::And => Some(Value::Bool(left && right)),
        Binary::Or => Some(Value::Bool(left || right)),
        _ => None,
    }
}

fn on_texts(
    alloc: Global,
    operator: Binary,
    left: &Text,
    right: &Text,
) -> Result<Option<Value>, AllocError>
    ensures { AnswersTexts operator left.now right.now result }
{
    match operator {
        Binary::Add => Ok(Some(Value::Text(join(alloc, left, right)?))),
        Binary::Equal => Ok(Some(Value::Bool(left.bytes() == right.bytes()))),
        Binary::Different => Ok(Some(Value::Bool(left.bytes() != right.bytes()))),
        _ => Ok(None),
    }
}

fn on_references(operator: Binary, left: Option<ObjectId>, right: Option<ObjectId>) -> Option<Value>
    ensures { result ≡ binary operator (value.Ref left) (value.Ref right) }
{
    match operator {
        Binary::Equal => Some(Value::Bool(left == right)),
        Binary::Different => Some(Value::Bool(left != right)),
        _ => None,
    }
}
