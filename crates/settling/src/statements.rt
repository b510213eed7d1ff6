//! Statements that do what they do with the value that their slot was called with.

ghost use Rattle.std.specs.Prelude.{IsTrue, ◌↔◌};
ghost use Rattle.meta_model.specs.declared.object.Statement.TheViews.{out-Statement};
ghost use Rattle.settling.specs.Hands.{IsCarried, PassesCarried, HandsValue};

use meta_model::{MetaPath, MetaRoot, Statement};
use syntax_trees::Expr;

/// Whether what the statement does by itself, it does with the value of the slot's first parameter alone.
pub fn hands_value(statement: &Statement) -> bool
    ensures { IsTrue result ↔ HandsValue (out-Statement statement.now) }
{
    match statement {
        Statement::Set(_, _, value) => is_carried(value),
        Statement::Emit(_, arguments) | Statement::Call(_, _, arguments) => {
            passes_carried(arguments.as_slice())
        }
        Statement::If(_, _, _)
        | Statement::Connect(_, _)
        | Statement::Disconnect(_)
        | Statement::Delete(_)
        | Statement::Later(_)
        | Statement::Group(_) => false,
    }
}

/// Whether it is all that these arguments pass.
fn passes_carried(arguments: &[Expr<MetaPath>]) -> bool
    ensures { IsTrue result ↔ PassesCarried arguments.now }
{
    match arguments.first() {
        Some(first) => arguments.len() == 1 && is_carried(first),
        None => false,
    }
}

/// Whether the expression is just the first parameter.
fn is_carried(value: &Expr<MetaPath>) -> bool
    ensures { IsTrue result ↔ IsCarried value.now }
{
    match value {
        Expr::Path(path) => path.root == MetaRoot::Parameter(0) && path.steps.as_slice().is_empty(),
        Expr::Literal(_) | Expr::Unary(_, _) | Expr::Binary(_, _, _) => false,
    }
}
