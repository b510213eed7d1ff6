ghost use Rattle.std.specs.Prelude.{◌≡◌, ◌↔◌, [], IsTrue, IfOk};
ghost use Rattle.basic_types.specs.Text.{IsText, IsTextByte, FindsText};

use crate::shared_bytes::SharedBytes;
use std::alloc::{AllocError, Global};
use std::marker::Model;

/// How many bytes a text has at most.
pub const LONGEST_TEXT: usize = 255;

/// A text: at most 255 bytes, each from 32 to 126 and none of them 34, the quote. Copies share its bytes.
pub struct Text {
    bytes: SharedBytes,
}

impl Drop for Text {
    fn drop(self) {
        let Text { bytes: _ } = self;
    }
}

impl Model for Text {
    ghost use Rattle.std.specs.Prelude.{List, ℕ};
    ghost use Rattle.basic_types.specs.Text.{IsText};

    ghost Value = { List ℕ };

    ghost view = { λ text. text.bytes };

    ghost invariant = { λ text. IsText text.bytes };
}

impl Text {
    /// The text of these bytes, or `None` where a text may not have them.
    pub fn of(alloc: Global, bytes: &[u8]) -> Result<Option<Text>, AllocError>
        ensures { IfOk result (FindsText bytes.now) }
    {
        if is_text(bytes) {
            let bytes = SharedBytes::new(alloc, bytes)?;
            Ok(Some(Text { bytes }))
        } else {
            Ok(None)
        }
    }

    /// The text of these bytes, which it shares, or `None` where a text may not have them.
    pub fn sharing(bytes: &SharedBytes) -> Result<Option<Text>, AllocError>
        ensures { IfOk result (FindsText bytes.now) }
    {
        if is_text(bytes.as_slice()) {
            let bytes = bytes.copy()?;
            Ok(Some(Text { bytes }))
        } else {
            Ok(None)
        }
    }

    /// The text of no bytes.
    pub fn empty(alloc: Global) -> Result<Text, AllocError>
        ensures { IfOk result (λ text. text ≡ []) }
    {
        let none: [u8; 0] = [];
        let bytes = SharedBytes::new(alloc, none.as_slice())?;
        Ok(Text { bytes })
    }

    /// The text's bytes.
    pub fn bytes(&self) -> &[u8]
        ensures value { result.now ≡ self.now }
        ensures text { IsText self.now }
    {
        self.bytes.as_slice()
    }

    /// The same text, which shares the bytes.
    pub fn copy(&self) -> Result<Text, AllocError>
        ensures { IfOk result (λ copy. copy ≡ self.now) }
    {
        let bytes = self.bytes.copy()?;
        Ok(Text { bytes })
    }

    /// Whether both texts have the same bytes.
    pub fn is_same(&self, other: &Text) -> bool
        ensures { IsTrue result ↔ (self.now ≡ other.now) }
    {
        self.bytes() == other.bytes()
    }
}

/// Whether a text may have these bytes.
pub fn is_text(bytes: &[u8]) -> bool
    ensures { IsTrue result ↔ IsText bytes.now }
{
    bytes.len() <= LONGEST_TEXT && bytes.iter().all(|byte| is_text_byte(*byte))
}

/// Whether a text may have the byte: 32 to 126, and not 34.
pub fn is_text_byte(byte: u8) -> bool
    ensures { IsTrue result ↔ IsTextByte byte }
{
    32 <= byte && byte <= 126 && byte != 34
}
