//! How values are written down, and what a change of properties writes down.

mod showing;
mod telling;

pub use showing::{show, show_all};
pub use telling::{Cause, Telling, line_of};
