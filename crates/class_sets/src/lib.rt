//! Sets of classes, in words of 64 bits.
#![tactic(auto)]

mod class_set;

pub use class_set::ClassSet;
