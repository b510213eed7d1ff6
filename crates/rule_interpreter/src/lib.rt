//! The code that goes by the rules of a run: it interprets the bodies of slots, and does all that follows from what they do.
#![tactic(auto)]

mod active;
mod answer;
mod body;
mod destruction;
mod emission;
mod interpreter;
mod native;
mod remaining;
mod statements;
mod turn;
mod update;

pub use active::Active;
pub use interpreter::Interpreter;
