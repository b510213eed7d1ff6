//! Where rules lead, one after another, and what they keep.

mod laws;

pub use laws::rules_keep;
