//! Making the least valid certificate of a program, or telling why none is valid.
#![tactic(auto)]

mod bounds;
mod making;
mod naming;
mod ranking;
mod reasons;
mod rows;
mod why;

pub use bounds::first_high;
pub use certificate_lang::{Certificate, Line, MemberName, NodeName};
pub use effect_scan::{Member, Node};
pub use making::{make, make_bound};
pub use naming::{line_of, node_name, set_items};
pub use rank_graph::Solution;
pub use ranking::{Ranks, rank, rank_scan};
pub use type_check::Spot;
pub use why::Why;
