//! Traces laid out for people: indented by depth, told apart by colours, and with a sentence where something was refused
//! or went wrong. A filter over the lines, of which none is lost.

mod colour;
mod layout;
mod remarks;
mod show;

pub use layout::push_shown;
pub use remarks::remark;
pub use show::show_trace;
