//! How an expression is written.

use crate::statement::BodyContext;
use basic_types::Value;
use meta_model::MetaPath;
use std::alloc::AllocError;
use syntax_trees::{Binary, Expr, Unary};

/// What stands in the place of what isn't written.
pub const LEFT_OUT: &str = "..";

/// An expression of more bytes isn't written.
const MOST_WRITTEN: usize = 60;

/// How tight an operand is that stands behind a prefix.
const TIGHTEST: u8 = 6;

/// How an operator is written, and how tight it binds: those of looser operands have brackets.
#[derive(Clone, Copy)]
struct Operator {
    word: &'static str,
    tightness: u8,
    left: u8,
    right: u8,
}

impl Operator {
    fn of(operator: Binary) -> Operator {
        match operator {
            Binary::Or => Operator::chained("||", 1, 2),
            Binary::And => Operator::chained("&&", 2, 3),
            Binary::Equal => Operator::comparison("=="),
            Binary::Different => Operator::comparison("!="),
            Binary::Less => Operator::comparison("<"),
            Binary::AtMost => Operator::comparison("<="),
            Binary::Greater => Operator::comparison(">"),
            Binary::AtLeast => Operator::comparison(">="),
            Binary::Add => Operator::chained("+", 4, 5),
            Binary::Subtract => Operator::chained("-", 4, 5),
            Binary::Multiply => Operator::chained("*", 5, TIGHTEST),
        }
    }

    /// One that groups to the left.
    fn chained(word: &'static str, tightness: u8, right: u8) -> Operator {
        Operator {
            word,
            tightness,
            left: tightness,
            right,
        }
    }

    /// One that doesn't chain.
    fn comparison(word: &'static str) -> Operator {
        Operator {
            word,
            tightness: 3,
            left: 4,
            right: 4,
        }
    }
}

impl BodyContext<'_> {
    /// The expression as it is written, without brackets that it doesn't need; `..` for a long one.
    pub fn expression_text(&self, expression: &Expr<MetaPath>) -> Result<String, AllocError> {
        let alloc = self.source.alloc;
        let mut text = String::new(alloc);
        self.push_expression(&mut text, expression, 0)?;
        if text.len() > MOST_WRITTEN {
            return String::from_str(alloc, LEFT_OUT);
        }
        Ok(text)
    }

    /// Adds the expression, in brackets where it is looser than this.
    fn push_expression(
        &self,
        text: &mut String,
        expression: &Expr<MetaPath>,
        tightness: u8,
    ) -> Result<(), AllocError> {
        match expression {
            Expr::Literal(value) => push_literal(text, value),
            Expr::Path(path) => {
                let path = self.path_text(path)?.text;
                text.push_str(path.as_str())
            }
            Expr::Unary(operator, operand) => {
                text.push_str(prefix(*operator))?;
                self.push_expression(text, operand.get(), TIGHTEST)
            }
            Expr::Binary(operator, left, right) => {
                let operator = Operator::of(*operator);
                let is_looser = operator.tightness < tightness;
                let word = operator.word;
                text.push_str(if is_looser { "(" } else { "" })?;
                self.push_expression(text, left.get(), operator.left)?;
                write!(text, " {word} ")?;
                self.push_expression(text, right.get(), operator.right)?;
                text.push_str(if is_looser { ")" } else { "" })
            }
        }
    }
}

fn prefix(operator: Unary) -> &'static str {
    match operator {
        Unary::Not => "!",
        Unary::Minus => "-",
    }
}

/// Adds the literal. What is in a text is left out.
fn push_literal(text: &mut String, value: &Value) -> Result<(), AllocError> {
    match value {
        Value::Int(number) => write!(text, "{number}"),
        Value::Bool(truth) => write!(text, "{truth}"),
        Value::Text(_) => text.push_str("\"..\""),
        Value::Ref(_) => text.push_str("null"),
    }
}
