//! The connections between objects, as their numbers say in which order they were made.
#![tactic(auto)]

mod adding;
mod cell;
mod connection;
mod connections;
mod fault;
mod groups;
mod hint;
mod lists;
mod place;
mod removing;
mod search;
mod sweeping;

pub use connection::Connection;
pub use connections::Connections;
pub use fault::{ConnectFault, DisconnectFault};
pub use hint::SignalHint;
