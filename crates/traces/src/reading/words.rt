//! Words of a line, which blanks part.

ghost use Rattle.std.specs.Prelude.{◌≡◌, nat_eq};
ghost use Rattle.std.specs.List.{position};
ghost use Rattle.traces.specs.Words.{CutsWord};

const BLANK: u8 = 32;

/// What comes before the first blank, and what follows it; `None` where there is no blank.
pub fn cut_word(text: &[u8]) -> (&[u8], Option<&[u8]>)
    ensures { CutsWord text.now result.0.now result.1 }
{
    match first_blank(text) {
        Some(at) => (&text[..at], Some(&text[at + 1..])),
        None => (text, None),
    }
}

/// Where the first blank stands.
fn first_blank(text: &[u8]) -> Option<usize>
    ensures { result ≡ position (λ b. nat_eq b BLANK) text.now }
{
    text.iter().position(|byte| *byte == BLANK)
}
