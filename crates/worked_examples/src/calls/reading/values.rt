//! The types and values of expressions.

use anyhow::{Result, anyhow};
use basic_types::{Name, QType, Value};
use slot_lang::{EvalFault, Expr, ExprType, Names, Path, World, eval, parse_expr, tokens, type_of};
use std::alloc::{AllocError, Global};
use std::str;

/// Expressions whose types are asked for.
const TYPED: &[&str] = &[
    "-p * 2 + p.q - 1",
    "p == 2 && !(p >= 3)",
    "\"a\" + \"\"",
    "null",
    "p + true",
];

/// Expressions whose values are.
const EVALUATED: &[&str] = &["-p * 2 + p.q - 1", "2147483647 + p", "p < 8", "p + true"];

/// Paths that are all of one type, and lead to the number 7.
#[derive(Drop)]
struct Sevens {
    kind: QType,
}

impl Names<Path> for Sevens {
    ghost use Rattle.std.specs.Prelude.{Some};

    ghost types = { λ sevens path. Some sevens.kind };

    fn kind(&self, _path: &Path) -> Result<Option<QType>, AllocError> {
        let kind = self.kind.copy()?;
        Ok(Some(kind))
    }
}

impl World<Path> for Sevens {
    ghost use Rattle.std.specs.Prelude.{Some, pos};
    ghost use Rattle.basic_types.specs.declared.value.Value.TheVariants.{Int};

    ghost read = { λ sevens path. Some (Int (pos 7)) };

    fn value(&self, _path: &Path) -> Result<Value, EvalFault> {
        Ok(Value::Int(7))
    }
}

/// Writes the types and values of expressions, where each path has the type `int` and leads to 7.
pub fn tell_expressions<R: Print + AllocGlobal>(rt: &R) -> Result<()> {
    let paths = int_paths(rt.alloc())?;
    for text in TYPED.iter().copied() {
        tell_type(rt, text, &paths)?;
    }
    for text in EVALUATED.iter().copied() {
        tell_value(rt, text, &paths)?;
    }
    Ok(())
}

/// Paths of the type `int`.
fn int_paths(alloc: Global) -> Result<Sevens> {
    match Name::of(alloc, b"int".as_slice())? {
        Some(name) => Ok(Sevens {
            kind: QType::value(name),
        }),
        None => Err(anyhow!("`int` is no name")),
    }
}

/// The expression that a text stands for.
fn expression_of(alloc: Global, text: &str) -> Result<Expr<Path>> {
    let tokens = tokens(alloc, text.as_bytes())?;
    let expression = parse_expr(alloc, tokens.as_slice())?;
    Ok(expression)
}

/// What an expression's type is called; empty where it has none.
fn type_text(
    alloc: Global,
    expression: &Expr<Path>,
    paths: &Sevens,
) -> Result<Vec<u8>, AllocError> {
    match type_of(alloc, expression, paths)? {
        Some(ExprType::Of(found)) => found.text(alloc),
        Some(ExprType::Null) => Vec::from_slice(alloc, b"null".as_slice()),
        None => Ok(Vec::new(alloc)),
    }
}

/// Writes the type of an expression.
fn tell_type<R: Print + AllocGlobal>(rt: &R, text: &str, paths: &Sevens) -> Result<()> {
    let expression = expression_of(rt.alloc(), text)?;
    let found = type_text(rt.alloc(), &expression, paths)?;
    println!(rt; "{text}: `{}`", str::from_utf8(found.as_slice())?)?;
    Ok(())
}

/// Writes the number that an expression has as its value, if it is one.
fn tell_value<R: Print + AllocGlobal>(rt: &R, text: &str, paths: &Sevens) -> Result<()> {
    let expression = expression_of(rt.alloc(), text)?;
    match eval(rt.alloc(), &expression, paths) {
        Ok(Value::Int(number)) => println!(rt; "{text}: {number}")?,
        _ => println!(rt; "{text}: no number")?,
    }
    Ok(())
}
