//! What is wrong with a command line or its input.

/// Why a command line or its input isn't one that the program takes.
#[derive(Clone, Copy, Debug, PartialEq, Eq)]
pub enum UsageFault {
    /// The words are no command; nothing was read.
    Words,
    /// The input has more than 67,108,864 bytes.
    TooLarge,
    /// The input has another number of texts than this one, which the command takes.
    Texts(usize),
}
