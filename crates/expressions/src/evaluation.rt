//! The value of an expression.

ghost use Rattle.std.specs.Prelude.{◌≡◌, Option, Some, None, MatchResult};
ghost use Rattle.expressions.specs.declared.evaluation.EvalFault.TheVariants as fault;
ghost use Rattle.expressions.specs.Evaluation.{value, values, Evaluates, EvaluatesAll};
ghost use Rattle.basic_types.specs.declared.value.Value.{Value as AValue};

use crate::operators::{apply_binary, apply_unary};
use basic_types::{Arguments, Value};
use std::alloc::{AllocError, Global};
use syntax_trees::Expr;
use thiserror::Error;

/// Why an expression has no value.
#[derive(Debug, Drop, Error)]
pub enum EvalFault {
    /// An operator met a value that it doesn't take.
    #[error("a value isn't of the type that an operator asks")]
    BadType,
    /// A growth of memory was refused.
    #[error("out of memory")]
    Memory,
}

impl From<AllocError> for EvalFault {
    ghost use Rattle.std.specs.Prelude.{◌≡◌};
    ghost use Rattle.expressions.specs.declared.evaluation.EvalFault.TheVariants.{Memory};

    ghost from_gives = { λ _ fault. fault ≡ Memory };

    fn from(_: AllocError) -> EvalFault {
        EvalFault::Memory
    }
}

/// What the paths of expressions lead to.
pub trait World<P> {
    /// The value that a path leads to, if it leads to one.
    ghost read: { Self → P → Option AValue };

    /// The value that a path leads to; `BadType` where it leads to none.
    fn value(&self, path: &P) -> Result<Value, EvalFault>
        ensures { Evaluates (read self.now path.now) result };
}

#[tactic(auto, using(crate::proofs::Evaluating::value_equations))]
/// The value of an expression, for what its paths lead to. `BadType` exactly where it has none: where an operator meets
/// a value that it doesn't take. Both operands of an operator are evaluated, the left one first; a path and a literal, as
/// most are, are taken as they stand.
pub fn eval<P: Drop, W: World<P>>(
    alloc: Global,
    expression: &Expr<P>,
    world: &W,
) -> Result<Value, EvalFault>
    ensures { Evaluates (value (W.read world.now) expression.now) result }
{
    match expression {
        Expr::Literal(value) => Ok(value.copy()?),
        Expr::Path(path) => world.value(path),
        Expr::Unary(operator, operand) => {
            let operand = eval(alloc, operand.get(), world)?;
            apply_unary(*operator, &operand).ok_or(EvalFault::BadType)
        }
        Expr::Binary(operator, left, right) => {
            if let Expr::Path(path) = left.get() {
                if let Expr::Literal(literal) = right.get() {
                    let read = world.value(path)?;
                    return apply_binary(alloc, *operator, &read, literal);
                }
            }
            let left = eval(alloc, left.get(), world)?;
            let right = eval(alloc, right.get(), world)?;
            apply_binary(alloc, *operator, &left, &right)
        }
    }
}

/// The values of expressions, in their order; `BadType` exactly where one of them has none.
pub fn eval_all<P: Drop, W: World<P>>(
    alloc: Global,
    expressions: &[Expr<P>],
    world: &W,
) -> Result<Arguments, EvalFault>
    ensures { EvaluatesAll (values (W.read world.now) expressions.now) result }
{
    let mut arguments = Arguments::new(alloc);
    for expression in expressions {
        let value = eval(alloc, expression, world)?;
        arguments.push(value)?;
    }
    Ok(arguments)
}
