//! Bindings of properties as a graph: what reads what, and in which order that is evaluated.
#![tactic(auto)]

mod binding;
mod following;
mod graph;
mod installed;
mod laws;
mod lists;
mod numbering;
mod place;
mod ranks;
mod readers;
mod touching;
mod turns;

pub use binding::Binding;
pub use following::followers;
pub use graph::Graph;
pub use installed::{Installed, Reader};
pub use laws::acyclic_determine;
pub use numbering::Numbered;
pub use place::Place;
