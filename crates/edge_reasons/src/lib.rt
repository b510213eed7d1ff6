//! What draws an edge of a program's scan: the statement, wire, binding or other declaration by which the one member leads to
//! the other; and the statements of a body in the order of the text, and by number.
#![tactic(auto)]

mod numbered;
mod reasons;

pub use numbered::{Numbered, statement_at};
pub use reasons::{Reason, reason_for};
