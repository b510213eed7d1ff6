//! How grave findings are.

/// How grave a finding is.
#[derive(Clone, Copy, Debug, PartialEq, Eq)]
pub enum FindingSeverity {
    /// It has to be mended: the exit status says so.
    Error,
    /// It is hardly meant.
    Warning,
    /// It is worth knowing.
    Note,
}

impl FindingSeverity {
    /// All of them, the gravest first.
    pub const ALL: [FindingSeverity; 3] = [
        FindingSeverity::Error,
        FindingSeverity::Warning,
        FindingSeverity::Note,
    ];

    /// It, in a word, which is also its level in SARIF.
    pub fn word(self) -> &'static str {
        match self {
            FindingSeverity::Error => "error",
            FindingSeverity::Warning => "warning",
            FindingSeverity::Note => "note",
        }
    }
}
