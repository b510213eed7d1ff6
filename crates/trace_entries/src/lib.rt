//! What a run writes down and answers: the entries of its trace, what became of events, and why a run stops.
#![tactic(auto)]

mod entry;
mod fault;
mod refusal;
mod shown_values;

pub use entry::{Entry, EntryKind, Shown, ShownAction, Trace};
pub use fault::{Answer, Fault};
pub use refusal::Refusal;
pub use shown_values::ShownValues;
