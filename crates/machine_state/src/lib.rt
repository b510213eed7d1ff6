//! The machine's state but the stack: objects, connections, event loops, bindings and the trace.
#![tactic(auto)]

mod binding;
mod changes;
mod connecting;
mod deleting;
mod endpoints;
mod turn;
mod world;

pub use changes::{Cause, Telling, line_of, show, show_all};
pub use connecting::{join, part};
pub use endpoints::Endpoints;
pub use turn::{MAIN, Turn, reaches_at_once};
pub use world::{World, is_silent};
