//! What may be given an expression.

ghost use Rattle.std.specs.Prelude.{◌↔◌, IsTrue, IfOk};
ghost use Rattle.expressions.specs.Typing.{type_of};
ghost use Rattle.type_check.specs.Accepting.{Takes};

use crate::naming::{ClassNames, spelled};
use expressions::{Names, accepts, type_of};
use meta_model::{Meta, ValueType};
use std::alloc::{AllocError, Global};
use syntax_trees::Expr;

/// Whether something of the declared type may be given the expression, for the declared types of its paths. Its error is
/// that memory was refused.
pub fn is_given<P: Drop, N: Names<P>>(
    alloc: Global,
    meta: &Meta,
    declared: ValueType,
    expression: &Expr<P>,
    names: &N,
) -> Result<bool, AllocError>
    ensures { IfOk result (λ answer.
        IsTrue answer ↔ Takes meta.now declared (type_of (N.types names.now) expression.now)) }
{
    let Some(declared) = spelled(alloc, meta, declared)? else {
        return Ok(false);
    };
    let Some(given) = type_of(alloc, expression, names)? else {
        return Ok(false);
    };
    Ok(accepts(&declared, &given, &ClassNames { meta }))
}
