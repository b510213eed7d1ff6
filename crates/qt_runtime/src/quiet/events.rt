//! One module an event: how it is judged, and what it does.

pub mod add_loop;
pub mod adopt;
pub mod block;
pub mod connect;
pub mod create;
pub mod disconnect;
pub mod later;
pub mod move_object;
