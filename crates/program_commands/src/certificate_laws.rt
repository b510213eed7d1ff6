//! What holds of the certificates of a program: it has one least certificate, a check has one answer, and what the maker makes
//! is read from its text.

mod laws;
mod names;

pub use laws::{made_is_read, one_least, one_making, one_verdict, valid_is_writable};
pub use names::{loaded_names, read_names};
