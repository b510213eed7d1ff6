//! The verdict on a program and its certificate: all that is wrong, as findings, and the exit status.
#![tactic(auto)]

mod certificate;
mod errors;
mod judged;
mod judging;
mod program;
mod refusal;

pub use errors::found_errors;
pub use judging::{AcceptedEdges, Texts, verdict};
pub use program::Located;
pub use program_flaws::ProgramPlaces;
