//! The calls for signatures, texts and values, and for expressions.

use crate::once_or_twice;
use crate::trials::{ReportBuffer, TrialAnswer};
use basic_types::{INT, LONGEST_TEXT, Name, QSTRING, QType, Sig, Text, Value};
use signatures::{SigFault, normalise};
use slot_lang::{EvalFault, Expr, ExprType, Names, Path, World, eval, parse_expr, tokens, type_of};
use std::alloc::{AllocError, Global};

/// A signature that isn't in normal form.
const SIGNATURE: &str = "f(Cell const *, int const)";

/// `normalise`.
pub fn normal_form(alloc: Global, told: &mut ReportBuffer) -> TrialAnswer {
    match normalise(alloc, SIGNATURE) {
        Ok(sig) => {
            told.signature(&sig);
            TrialAnswer::Ample
        }
        Err(SigFault::Memory) => TrialAnswer::Memory,
        Err(_) => TrialAnswer::Other,
    }
}

/// `Sig::text`.
pub fn signature_text(alloc: Global, told: &mut ReportBuffer) -> Option<TrialAnswer> {
    let sig = normalise(alloc, SIGNATURE).ok()?;
    let twin = normalise(alloc, SIGNATURE).ok()?;
    Some(once_or_twice!(tell_signature(alloc, &sig, told), sig.is_same(&twin)))
}

fn tell_signature(alloc: Global, sig: &Sig, told: &mut ReportBuffer) -> TrialAnswer {
    match sig.text(alloc) {
        Ok(text) => {
            told.bytes(text.as_slice());
            TrialAnswer::Ample
        }
        Err(AllocError) => TrialAnswer::Memory,
    }
}

/// `Text::of`.
pub fn text_of(alloc: Global, told: &mut ReportBuffer) -> TrialAnswer {
    match Text::of(alloc, b"hi") {
        Ok(Some(text)) => {
            told.value(&Value::Text(text));
            TrialAnswer::Ample
        }
        Ok(None) => TrialAnswer::Other,
        Err(AllocError) => TrialAnswer::Memory,
    }
}

/// `Value::copy`.
pub fn value_copy(alloc: Global, told: &mut ReportBuffer) -> Option<TrialAnswer> {
    let value = text_value(alloc, b"hi")?;
    let twin = text_value(alloc, b"hi")?;
    Some(once_or_twice!(tell_copy(&value, told), value.is_same(&twin)))
}

fn text_value(alloc: Global, bytes: &[u8]) -> Option<Value> {
    Some(Value::Text(Text::of(alloc, bytes).ok()??))
}

fn tell_copy(value: &Value, told: &mut ReportBuffer) -> TrialAnswer {
    match value.copy() {
        Ok(copy) => {
            told.value(&copy);
            TrialAnswer::Ample
        }
        Err(AllocError) => TrialAnswer::Memory,
    }
}

/// Paths that are all of one type, and lead to one value.
#[derive(Drop)]
struct Everywhere {
    kind: QType,
    value: Value,
}

impl Names<Path> for Everywhere {
    ghost use Rattle.std.specs.Prelude.{Some};

    ghost types = { λ paths path. Some paths.kind };

    fn kind(&self, _path: &Path) -> Result<Option<QType>, AllocError> {
        let kind = self.kind.copy()?;
        Ok(Some(kind))
    }
}

impl World<Path> for Everywhere {
    ghost use Rattle.std.specs.Prelude.{Some};

    ghost read = { λ paths path. Some paths.value };

    fn value(&self, _path: &Path) -> Result<Value, EvalFault> {
        let value = self.value.copy()?;
        Ok(value)
    }
}

/// Paths of the type `int` to this number.
fn int_paths(alloc: Global, number: i32) -> Option<Everywhere> {
    let kind = QType::value(Name::new(alloc, INT).ok()?);
    Some(Everywhere {
        kind,
        value: Value::Int(number),
    })
}

/// Paths of the type `QString` to a text of 255 bytes.
fn text_paths(alloc: Global) -> Option<Everywhere> {
    let kind = QType::value(Name::new(alloc, QSTRING).ok()?);
    let value = text_value(alloc, &[b'x'; LONGEST_TEXT])?;
    Some(Everywhere { kind, value })
}

fn expression(alloc: Global, text: &str) -> Option<Expr<Path>> {
    let tokens = tokens(alloc, text.as_bytes()).ok()?;
    parse_expr(alloc, tokens.as_slice()).ok()
}

/// `type_of`.
pub fn expression_type(alloc: Global, told: &mut ReportBuffer) -> Option<TrialAnswer> {
    let paths = int_paths(alloc, 0)?;
    let expression = expression(alloc, "v + 1")?;
    Some(once_or_twice!(tell_type(alloc, &expression, &paths, told), true))
}

fn tell_type(
    alloc: Global,
    expression: &Expr<Path>,
    paths: &Everywhere,
    told: &mut ReportBuffer,
) -> TrialAnswer {
    match type_of(alloc, expression, paths) {
        Ok(Some(ExprType::Of(kind))) => {
            told.kind(&kind);
            TrialAnswer::Ample
        }
        Ok(_) => TrialAnswer::Other,
        Err(AllocError) => TrialAnswer::Memory,
    }
}

/// `eval` of a sum.
pub fn sum(alloc: Global, told: &mut ReportBuffer) -> Option<TrialAnswer> {
    let paths = int_paths(alloc, 2147483646)?;
    let expression = expression(alloc, "c.x + 1")?;
    Some(once_or_twice!(tell_eval(alloc, &expression, &paths, told), true))
}

/// `eval` of two texts that are joined.
pub fn joined(alloc: Global, told: &mut ReportBuffer) -> Option<TrialAnswer> {
    let paths = text_paths(alloc)?;
    let expression = expression(alloc, "this.t + s")?;
    Some(once_or_twice!(tell_eval(alloc, &expression, &paths, told), true))
}

fn tell_eval(
    alloc: Global,
    expression: &Expr<Path>,
    paths: &Everywhere,
    told: &mut ReportBuffer,
) -> TrialAnswer {
    match eval(alloc, expression, paths) {
        Ok(value) => {
            told.value(&value);
            TrialAnswer::Ample
        }
        Err(EvalFault::Memory) => TrialAnswer::Memory,
        Err(EvalFault::BadType) => TrialAnswer::Other,
    }
}
