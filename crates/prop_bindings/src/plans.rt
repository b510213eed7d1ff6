//! Writes and binds of properties: what they change, when they may be, and how they are planned before anything changes.

mod assignment;
mod changed_places;
mod fault;
mod given;
mod planned;

pub use assignment::Assignment;
pub use changed_places::ChangedPlaces;
pub use fault::{BindFault, WriteFault};
pub use given::value_near;
pub use planned::{Planned, PlannedBind, PlannedGroup, PlannedWrite};
