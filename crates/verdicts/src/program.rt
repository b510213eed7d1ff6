//! What is found of a program that loads: what doesn't fit or isn't typed, cycles, ways to deletions, chains that are too long, and
//! what is worth a warning or a note.

mod chains;
mod cycles;
mod deletions;
mod dropped;
mod located;
mod posts;
mod program;
mod remarks;
mod resting;
mod search;
mod sentences;
mod turns;
mod typing_flaws;
mod walks;

pub use located::Located;
pub use program::{gather_program, program_errors, program_remarks, settled_remarks};
pub use remarks::Remarks;
pub use sentences::MessageWithHelp;
pub use walks::{
    DirectedGraph, Hop, Hops, components, components_of_nodes, is_marked, marks, set_mark,
};
