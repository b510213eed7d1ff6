//! The values and types of expressions.
#![tactic(auto)]

mod evaluation;
mod operators;
mod sort;
mod typing;

pub use evaluation::{EvalFault, World, eval, eval_all};
pub use operators::{apply_binary, apply_unary, join, negate};
pub use sort::Sort;
pub use typing::{Classes, ExprType, Names, accepts, this_type, type_of, typed_have_values};
