//! Commands together with what a person is told of their ends.
#![tactic(auto)]

mod ends;
mod escapes;
mod explain;
mod explanations;
mod placed;
mod remarks;
mod reports;

pub use ends::{Explained, explained_command, tell_fault};
pub use reports::{EXPLAIN, FIRST_REFUSALS, is_asked};
pub use trace_tool::WriteFault;
