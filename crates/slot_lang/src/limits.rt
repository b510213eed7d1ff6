//! How many types the signatures in bodies have.

ghost use Rattle.std.specs.Prelude.{◌↔◌, IsTrue, All};
ghost use Rattle.slot_lang.specs.Bodies.{signatures_of, signatures_in};
ghost use Rattle.syntax_trees.specs.Connections.{HasFewTypes};

use syntax_trees::Stmt;

/// Whether no signature in the body has more than 8 types.
#[cycle(bodies)]
pub fn body_has_few_parameters(body: &[Stmt]) -> bool
    ensures { IsTrue result ↔ All HasFewTypes (signatures_in body.now) }
{
    for statement in body {
        if !statement_has_few_parameters(statement) {
            return false;
        }
    }
    true
}

/// Whether none in the statement and its blocks has.
#[cycle(bodies)]
fn statement_has_few_parameters(statement: &Stmt) -> bool
    ensures { IsTrue result ↔ All HasFewTypes (signatures_of statement.now) }
{
    match statement {
        Stmt::Set(_, _, _) => true,
        Stmt::Emit(_, _) => true,
        Stmt::Call(_, _, _) => true,
        Stmt::If(_, body, other) => {
            body_has_few_parameters(body.as_slice()) && body_has_few_parameters(other.as_slice())
        }
        Stmt::Connect(ends, _) => ends.have_few_types(),
        Stmt::Disconnect(ends) => ends.have_few_types(),
        Stmt::Delete(_) => true,
        Stmt::Later(_) => true,
        Stmt::Group(sets) => body_has_few_parameters(sets.as_slice()),
    }
}
