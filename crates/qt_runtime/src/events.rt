//! One module an event after which something goes on: how it is judged, and what it does.

pub mod assign;
pub mod bind;
pub mod delete;
pub mod invoke;
pub mod turn;
