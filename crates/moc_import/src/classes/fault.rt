//! Why nothing is imported.

use std::alloc::AllocError;
use thiserror::Error;

/// Why nothing is imported.
#[derive(Debug, Drop, Error)]
pub enum ImportFault {
    /// A text isn't what moc writes: its number among the texts, and the line and column where that shows.
    #[error("text {text}, line {line}, column {column}: this isn't what `moc --output-json` writes")]
    BadJson {
        text: usize,
        line: usize,
        column: usize,
    },
    /// The texts have more classes than are read.
    #[error("the texts have more than 8192 classes")]
    TooManyClasses,
    /// No line `%%` parts off a text of effects, which is asked for.
    #[error("no line `%%` parts the effects from what `moc` writes")]
    NoEffects,
    /// The text of effects has more bytes than a program may have.
    #[error("the effects have more than 1048576 bytes")]
    LongEffects,
    /// The text of effects has more lines than a program may have slots.
    #[error("the effects have more than 16384 lines with slots")]
    TooManyLines,
    /// A class that is asked for isn't among those that are imported, as this sentence says.
    #[error("{0}")]
    NoClass(String),
    /// A growth of memory was refused.
    #[error("out of memory")]
    Memory,
}

impl From<AllocError> for ImportFault {
    fn from(_: AllocError) -> ImportFault {
        ImportFault::Memory
    }
}
