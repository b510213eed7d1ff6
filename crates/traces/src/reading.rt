//! Reads traces (docs/commands.md, "The trace"): what a line of one tells, and which line of a script its events come from.

mod line;
mod statements;
mod words;

pub use line::{LineKind, TraceLine};
pub use statements::Statements;
