//! The texts of settling certificates: how they are read and written.
#![tactic(auto)]

mod laws;
mod reader;
mod row;
mod syntax;
mod writer;

pub use laws::{one_reading, texts_are_read};
pub use reader::read_settling_certificate;
pub use writer::settling_text;
