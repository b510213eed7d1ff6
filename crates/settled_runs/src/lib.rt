//! Runs of programs with a settling certificate: what follows from a write in them, and how deep their activations nest.
#![tactic(auto)]

mod laws;
mod machine;

pub use laws::{
    deaths_keep, each_carries_one, each_changes_to_carried, each_is_shallow, each_run_is_faultless,
    followers_are_low, followers_leave, levels_are_shallow, levels_carry_one, nothing_follows,
    stops_at_limits, stops_for_few, value_is_handed, written_once, written_stay,
};
pub use machine::settling_machine;
