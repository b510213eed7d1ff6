//! Making a valid settling certificate of a program, or telling why none was made: its sets are nodes that all lead to one another.
#![tactic(auto)]

mod circles;
mod components;
mod ends;
mod groups;
mod heights;
mod highest;
mod laws;
mod limits;
mod lines;
mod making;
mod margin;
mod margins;
mod outer;
mod ranks;
mod search;
mod sets;
mod steps;
mod unsettled;
mod why;
mod without_steps;

pub use circles::Circle;
pub use components::{Components, components_of};
pub use ends::{destroyed, first_ending};
pub use heights::heights_of;
pub use laws::none_is_valid;
pub use lines::lines_of;
pub use making::make;
pub use margin::Margin;
pub use margins::margins_of;
pub use ranks::ranks_of;
pub use sets::{Sets, sets_of};
pub use steps::steps_of;
pub use unsettled::first_unsettled;
pub use why::Why;
