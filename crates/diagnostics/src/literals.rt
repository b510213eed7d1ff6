//! Words that are literals in other languages.

/// What to write in place of a word that is a literal in C++ or Python, and none here.
pub fn literal_for(word: &[u8]) -> Option<&'static str> {
    match word {
        b"nullptr" | b"NULL" | b"Q_NULLPTR" | b"None" => Some("write `null`"),
        b"True" | b"TRUE" => Some("write `true`"),
        b"False" | b"FALSE" => Some("write `false`"),
        _ => None,
    }
}
