//! What an answer of the program means, for a person: a sentence, and the place in the input.

mod explain;
mod usage;

pub use explain::{Asked, push_fault, push_outcome, push_untyped};
pub use usage::push_usage;
