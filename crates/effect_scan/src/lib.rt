//! What the members of a program's classes may do at once, told from its declarations and bodies alone.
#![tactic(auto)]

mod added;
mod closure;
mod edges;
mod effect;
mod families;
mod laws;
mod lineage;
mod node;
mod numbering;
mod places;
mod rows;
mod scan;
mod sharing;
mod targets;

pub use edges::named;
pub use effect::{Effect, Reach, effect_of};
pub use laws::edges_join_nodes;
pub use node::{Member, Node};
pub use numbering::Numbering;
pub use rows::{row_at, targets_at};
pub use scan::Scan;
pub use targets::Targets;
