//! The commands that run nothing: a program's classes, its certificate, and whether a certificate is valid for it. From the
//! bytes of the texts to what they come to, and to the bytes that are written and an exit status.
#![tactic(auto)]

mod certificate_laws;
mod certified;
mod certifying;
mod commands;
mod laws;
mod loading;
mod node_ways;
mod outcome;
mod reasons;
mod refusal;
mod settling_commands;
mod unloaded;
mod ways;

pub use certificate_laws::{
    loaded_names, made_is_read, one_least, one_making, one_verdict, read_names, valid_is_writable,
};
pub use certified::Certified;
pub use command_lines::WriteFault;
pub use commands::{certify, certify_outcome, check, check_outcome, meta, meta_outcome};
pub use laws::{certified_is_agreed, one_outcome, one_settling_outcome};
pub use loading::{load_certified, load_program, load_valid};
pub use outcome::Outcome;
pub use rank_check::Checked;
pub use rank_make::{Ranks, Why};
pub use refusal::Refusal;
pub use settling_commands::{
    SettlingOutcome, certify_settling, certify_settling_outcome, check_settling,
    check_settling_outcome, load_settling, settling_is_agreed,
};
pub use unloaded::Unloaded;
