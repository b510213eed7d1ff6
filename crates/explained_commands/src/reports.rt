//! What a person is told after a run: the event at which a fault came, what was begun by then, and why events were
//! refused.

mod active;
mod asked;
mod blame;
mod events;
mod faults;
mod known;
mod refusals;

pub use asked::{EXPLAIN, is_asked};
pub use faults::fault_report;
pub use refusals::{FIRST_REFUSALS, has_refused, has_unexpected, refusal_report};
