//! The texts of an input, which lines `%%` part.

use diagnostics::PARTING;
use texts::split_at_line;

/// The first text of an input and what follows it; `None` where nothing does.
pub fn split_text(input: &[u8]) -> Option<(&[u8], &[u8])> {
    split_at_line(input, PARTING)
}

/// The first text of an input, and what follows it, if something does.
pub fn first_text(input: &[u8]) -> (&[u8], Option<&[u8]>) {
    match split_text(input) {
        Some((first, rest)) => (first, Some(rest)),
        None => (input, None),
    }
}

/// The places, which are the first text of an input if it has some, and the other texts; `None` where there are no others.
pub fn places_first(input: &[u8], has_places: bool) -> Option<(&[u8], &[u8])> {
    if has_places {
        split_text(input)
    } else {
        Some((&[], input))
    }
}
