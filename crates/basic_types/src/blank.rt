//! Blanks.

ghost use Rattle.std.specs.Prelude.{◌≡◌};
ghost use Rattle.basic_types.specs.Tokens.{is_blank};

/// Whether it is a space, a tab, a carriage return or a newline.
#[inline(always)]
pub fn is_blank(byte: u8) -> bool
    ensures { result ≡ is_blank byte }
{
    byte == b' ' || byte == b'\t' || byte == b'\r' || byte == b'\n'
}
