//! Scripts whose runs end as a program's refusal warns: activations nest without bound, bindings form a loop, or an object dies
//! in a slot of its own.
#![tactic(auto)]

mod event_subset;
mod events;
mod lent;
mod names;
mod search;
mod stage;
mod trials;

pub use search::{SearchOutcome, WitnessFault, find_witness};
