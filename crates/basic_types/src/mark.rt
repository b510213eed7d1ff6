//! What may stand between the words of a signature's text.

/// A byte that is no blank and belongs to no word.
#[derive(Clone, Copy, Debug, PartialEq, Eq)]
pub enum Mark {
    /// `(`
    Open,
    /// `)`
    Close,
    /// `,`
    Comma,
    /// `&`
    Ampersand,
    /// `*`
    Star,
    /// A byte that no signature has.
    Other,
}
