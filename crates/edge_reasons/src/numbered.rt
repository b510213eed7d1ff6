//! The statements of a body by number, counted from 0 in the order of the text: each `if` and each group before what is in
//! it.

ghost use Rattle.std.specs.Prelude.{MatchOption, ◌≤◌, length};
ghost use Rattle.edge_reasons.specs.Order.{in_order, with_parts, IsNumbered, OccurringHaveNumbers};
ghost use Rattle.edge_reasons.specs.code.Finds.{Finds};

use meta_model::Statement;
use std::ops::ControlFlow;

/// A statement of a body, or one that is in a statement of it.
#[derive(Clone, Copy)]
pub struct Numbered<'m> {
    /// The statement.
    pub statement: &'m Statement,
    /// The place from 0, among the statements of the body itself, of the one that it is or is in.
    pub place: usize,
    /// Whether it is in a statement of the body.
    pub is_inner: bool,
}

/// The statement of this number in the body, or `None` where it has no more than so many, with those in its blocks and
/// groups. Time is linear in the number.
pub fn statement_at(body: &[Statement], number: usize) -> Option<Numbered<'_>>
    ensures numbered { MatchOption result (length (in_order body.now) ≤ number) (IsNumbered body.now number) }
    ensures order { OccurringHaveNumbers body.now }
{
    let mut left = number;
    for (place, statement) in body.iter().enumerate() {
        let is_inner = left > 0;
        match found_in(statement, left) {
            ControlFlow::Break(statement) => {
                return Some(Numbered {
                    statement,
                    place,
                    is_inner,
                });
            }
            ControlFlow::Continue(rest) => left = rest,
        }
    }
    None
}

/// The statement before which so many stand in these, or how many are left behind them all.
#[cycle(finding)]
fn found_among(body: &[Statement], before: usize) -> ControlFlow<&Statement, usize>
    ensures { Finds (in_order body.now) before result }
{
    let mut left = before;
    for statement in body {
        left = found_in(statement, left)?;
    }
    ControlFlow::Continue(left)
}

/// The same of one statement and those in it.
#[cycle(finding)]
fn found_in(statement: &Statement, before: usize) -> ControlFlow<&Statement, usize>
    ensures { Finds (with_parts statement.now) before result }
{
    let Some(left) = before.checked_sub(1) else {
        return ControlFlow::Break(statement);
    };
    match statement {
        Statement::If(_, chosen, other) => {
            let left = found_among(chosen.as_slice(), left)?;
            found_among(other.as_slice(), left)
        }
        Statement::Group(sets) => found_among(sets.as_slice(), left),
        _ => ControlFlow::Continue(left),
    }
}
