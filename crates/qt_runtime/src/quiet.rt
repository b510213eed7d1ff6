//! What the world becomes where an event is refused or accepted, and the events after which nothing is going on.

mod accepting;
mod binding;
mod events;
mod refusing;

pub use accepting::{accept, accept_turn, accept_with, reject};
pub use binding::{accept_bind, accept_write};
pub use events::add_loop::add_loop;
pub use events::adopt::adopt;
pub use events::block::block;
pub use events::connect::connect;
pub use events::create::create;
pub use events::disconnect::disconnect;
pub use events::later::later;
pub use events::move_object::move_object;
pub use refusing::refuse;
