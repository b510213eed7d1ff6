//! The program's commands on any object machine: what a command line is about to do, how that is done and written, and what
//! it comes to: as a value, with the bytes that are written and the exit status.

mod command_line;
mod natives;
mod outcome;
mod prepared;
mod runs;

pub use command_line::{Answered, answer, limits_of, prepare_for};
pub use command_lines::{Failing, InputFault, LARGEST_INPUT, UsageFault, WriteFault};
pub use natives::FittingNatives;
pub use object_machine::ObjectMachine;
pub use outcome::{Outcome, Ran, Sent};
pub use prepared::{Carried, Prepared, Ready, sent};
pub use program_commands::{Outcome as ProgramOutcome, Refusal, Why};
pub use runs::{prepare_run, prepare_settling_run, prepare_unchecked_run};
