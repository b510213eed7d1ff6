//! The commands `certify --settling` and `check --settling`: certificates of programs whose circles come to rest.

mod commands;
mod laws;
mod loading;
mod outcome;
mod told;

pub use commands::{
    certify_settling, certify_settling_outcome, check_settling, check_settling_outcome,
};
pub use laws::settling_is_agreed;
pub use loading::load_settling;
pub use outcome::SettlingOutcome;
