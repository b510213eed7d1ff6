//! Typed bodies.

ghost use Rattle.std.specs.Prelude.{[], ◌∷◌, IfOk};
ghost use Rattle.type_check.specs.code.Judging.{Judges};

use crate::flaws::TypeFlaw;
use crate::scope::BodyScope;
use meta_model::Statement;
use std::alloc::AllocError;
use std::ops::ControlFlow;

/// What isn't typed in the first of these statements that isn't, with those in their blocks and groups, or the number of what
/// comes behind them all. The first of them has the number `start`. Its error is that memory was refused.
#[cycle(bodies)]
pub fn body_flaw(
    scope: &BodyScope,
    body: &[Statement],
    start: usize,
) -> Result<ControlFlow<TypeFlaw, usize>, AllocError>
    ensures { IfOk result (Judges scope.now.meta.now scope.now.class scope.now.types.now body.now start) }
{
    let mut next = start;
    for statement in body {
        match whole_flaw(scope, statement, next)? {
            ControlFlow::Break(flaw) => return Ok(ControlFlow::Break(flaw)),
            ControlFlow::Continue(number) => next = number,
        }
    }
    Ok(ControlFlow::Continue(next))
}

/// The same of one statement, which has the number `start`, and of those that are in it.
#[cycle(bodies)]
fn whole_flaw(
    scope: &BodyScope,
    statement: &Statement,
    start: usize,
) -> Result<ControlFlow<TypeFlaw, usize>, AllocError>
    ensures { IfOk result (Judges scope.now.meta.now scope.now.class scope.now.types.now (statement.now ∷ []) start) }
{
    if !scope.is_typed(statement)? {
        let fault = scope.fault(statement)?;
        let statement = Some(start);
        return Ok(ControlFlow::Break(TypeFlaw { statement, fault }));
    }
    let next = start.saturating_add(1);
    match statement {
        Statement::If(_, chosen, other) => match body_flaw(scope, chosen.as_slice(), next)? {
            ControlFlow::Break(flaw) => Ok(ControlFlow::Break(flaw)),
            ControlFlow::Continue(number) => body_flaw(scope, other.as_slice(), number),
        },
        Statement::Group(sets) => body_flaw(scope, sets.as_slice(), next),
        _ => Ok(ControlFlow::Continue(next)),
    }
}
