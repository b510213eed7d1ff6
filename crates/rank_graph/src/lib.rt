//! Graphs over numbered nodes: how long the chains from a node are and which classes it leads to, or a cycle; and paths and
//! chains along edges.
#![tactic(auto)]

mod bits;
mod cycle;
mod fault;
mod groups;
mod path;
mod search;
mod solution;
mod states;
mod witness;

pub use fault::Unranked;
pub use groups::solve;
pub use solution::Solution;
pub use witness::{chain_from, path_to};
