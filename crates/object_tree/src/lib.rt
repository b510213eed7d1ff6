//! Objects by number and name, what they have while they live, and who is whose parent.
#![tactic(auto)]

mod ancestors;
mod below;
mod children;
mod creation;
mod fault;
mod life;
mod moves;
mod object;
mod objects;
mod seen;
mod slot;
mod tree;
mod typing;
mod values;

pub use children::Children;
pub use creation::MOST_OBJECTS;
pub use fault::{AdoptFault, CreateFault};
pub use life::Life;
pub use object::Object;
pub use tree::Tree;
pub use values::Values;
