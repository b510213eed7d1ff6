//! Places of bytes, told while a text is gone through once.

use diagnostics::TextPlace;

/// How far a text was gone through.
#[derive(Clone, Copy)]
pub struct TextCursor<'t> {
    text: &'t [u8],
    at: usize,
    place: TextPlace,
}

impl<'t> TextCursor<'t> {
    /// From the text's beginning.
    pub fn new(text: &'t [u8]) -> TextCursor<'t> {
        TextCursor {
            text,
            at: 0,
            place: TextPlace { line: 1, column: 1 },
        }
    }

    /// Goes on to this byte, and answers its place.
    pub fn to(&mut self, at: usize) -> TextPlace {
        let passed = self.text.get(self.at..at).unwrap_or(&[]);
        for byte in passed {
            if *byte == b'\n' {
                self.place.line = self.place.line.saturating_add(1);
                self.place.column = 1;
            } else {
                self.place.column = self.place.column.saturating_add(1);
            }
        }
        self.at = at;
        self.place
    }
}
