//! What a run goes by and never changes, and what its code finds and does by that without a step of the machine.
#![tactic(auto)]

mod answers;
mod connecting;
mod context;
mod deleting;
mod method_call;
mod posting;
mod statements;

pub use answers::declaring;
pub use context::{Callee, RunContext};
pub use method_call::{MethodCall, front};
pub use statements::Scope;
