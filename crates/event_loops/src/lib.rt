//! The event loops, by name, with the items that wait in them to be delivered.
#![tactic(auto)]

mod fault;
mod item;
mod loops;
mod marks;
mod moving;
mod queue;
mod rings;

pub use fault::{AddFault, PostFault};
pub use item::{Item, Posted};
pub use loops::Loops;
