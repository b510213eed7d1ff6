//! Limits that more than one reader keeps to.

/// How many bytes the text of a program has at most, and a script's.
pub const MOST_BYTES: usize = 1_048_576;

/// How many activations nest in a run at most, and how great the bound of a certificate is at most.
pub const MOST_DEPTH: u32 = 256;
