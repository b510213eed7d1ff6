//! What the statements of a body mean: where its paths lead, what its expressions give, and what its sets write.

mod ends;
mod paths;
mod sets;

pub use paths::Scope;
