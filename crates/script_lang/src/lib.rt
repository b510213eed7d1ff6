//! Scripts: one event a line.
#![tactic(auto)]

mod event;
mod fault;
mod known;
mod limits;
mod reader;
mod syntax;
mod verb;

pub use event::{Event, Input};
pub use fault::ScriptFault;
pub use reader::{event_trail, one_answer, one_reading, read_script};
pub use syntax_trees::{ConnectionType, Endpoints, Literal};
