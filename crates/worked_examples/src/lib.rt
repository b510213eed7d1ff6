//! What only direct calls show.
#![tactic(auto)]

mod calls;

pub use calls::tell_calls;
