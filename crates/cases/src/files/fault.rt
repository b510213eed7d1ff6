//! What is wrong with a file of cases, or with their runs.

use std::alloc::AllocError;
use std::io;
use thiserror::Error;

/// Why the cases of a file can't be read or run.
#[derive(Debug, Drop, Error)]
pub enum CaseFault {
    /// A growth of memory was refused.
    #[error("out of memory")]
    Memory(#[from] AllocError),
    /// The file isn't in the format: the line, counted from 1, and what is wrong there.
    #[error("line {0}: {1}")]
    Malformed(usize, &'static str),
    /// What was reported of the runs couldn't be written.
    #[error("{0}")]
    Io(#[from] io::Error),
}
