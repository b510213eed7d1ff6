//! The program's commands: from words and bytes to what they come to, and to the bytes that are written and an exit status.
#![tactic(auto)]

mod any_machine;
mod commands;
mod laws;
mod runs;
mod settling_runs;

pub use any_machine::{
    Answered, Carried, Failing, FittingNatives, InputFault, LARGEST_INPUT, ObjectMachine, Outcome,
    Prepared, ProgramOutcome, Ran, Ready, Refusal, Sent, UsageFault, Why, WriteFault, answer,
    limits_of, prepare_for, prepare_run, prepare_settling_run, prepare_unchecked_run, sent,
};
pub use commands::{command, respond};
pub use laws::{one_command_outcome, one_run_outcome, stopped_is_prefix, undone_is_a_line};
pub use program_commands::{certify, check, meta};
pub use qt_runtime::{Entry, Fault, Machine, ScriptFault};
pub use runs::{run, run_outcome, run_unchecked, unchecked_run_outcome};
pub use settling_runs::{run_settling, settling_run_outcome};
