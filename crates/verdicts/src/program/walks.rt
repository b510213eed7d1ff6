//! Walks along edges, as those of a program: strongly connected components, shortest ways, and long chains. Unlike `rank_graph` it
//! goes on where there are cycles.

mod connected;
mod graph;
mod hops;
mod marking;

pub use connected::{components, components_of_nodes};
pub use graph::DirectedGraph;
pub use hops::{Hop, Hops};
pub use marking::{is_marked, marks, set_mark};
