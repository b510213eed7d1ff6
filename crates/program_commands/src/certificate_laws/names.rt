//! The names of programs: the names that a program's text gives to classes and their members, and those of what is loaded.

mod laws;

pub use laws::{loaded_names, read_names};
