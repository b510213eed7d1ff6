//! Objects, connections, event loops and bindings as one state, in which an object's deletion is scheduled, an object dies,
//! what is left of a dead object goes, and objects move to another event loop.
#![tactic(auto)]

mod fault;
mod laws;
mod live_connections;
mod store;

pub use fault::MoveFault;
pub use laws::{ended_is_forgotten, scheduled_once};
pub use live_connections::LiveConnections;
pub use store::Store;
