//! A token that can't stand where it does, or an end that comes too early: what is wrong, and what to write instead, from
//! what the text's reader looked for where it stopped.

mod advice;
mod habits;
mod pattern;
mod source;
mod unexpected;
mod wanted;

pub use advice::VERBS;
pub use source::TokenizedText;
pub use unexpected::Unexpected;
pub use wanted::is_among;
