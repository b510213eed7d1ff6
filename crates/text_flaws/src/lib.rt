//! What is wrong with a text, and where: a token that can't stand where it does, a byte or a limit.
#![tactic(auto)]

mod bytes;
mod certificate_lines;
mod certificates;
mod further;
mod limits;
mod lines;
mod parts;
mod program;
mod unexpected;

pub use certificate_lines::{certificate_flaws, settling_flaws};
pub use further::{further_program_flaws, further_script_flaws};
pub use limits::script_size_flaw;
pub use lines::script_flaw;
pub use program::program_flaw;
