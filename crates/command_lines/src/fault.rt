use std::io;
use thiserror::Error;

/// Why a command has no exit status.
#[derive(Clone, Copy, Debug, Error)]
pub enum WriteFault {
    /// The writer answered this error, or took no byte, which has the kind `WriteZero`. What it took by then are the
    /// first bytes of the output, and nothing was written after that.
    #[error("the output can't be written")]
    Failed(#[from] io::Error),
}
