//! The rules of a run, and what holds of them: emissions, bodies of slots and natives, connections that these make, writes of
//! properties and what follows from them, deletions of objects and turns of event loops.
#![tactic(auto)]

mod ends;
mod laws;
mod reaching;

pub use ends::{FoundEnds, kept_ends, named_signal};
pub use laws::{one_rule, rule_settles, stays_settled};
pub use reaching::rules_keep;
