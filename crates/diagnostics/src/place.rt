//! Places in a text.

ghost use Rattle.std.specs.Prelude.{◌≡◌, ◌≢◌, ◌+◌, ◌-◌, ◌<◌, ◌≤◌, ◌⊎◌, ℕ, length, slice_index};
ghost use Rattle.diagnostics.specs.Places.{IsLineAround, IsPlace};

const NEWLINE: u8 = 10;

/// A place in a text, as a person counts: lines and columns begin at 1, and a column is a byte.
#[derive(Clone, Copy, Debug, PartialEq, Eq)]
pub struct TextPlace {
    pub line: usize,
    pub column: usize,
}

impl TextPlace {
    /// The place of this byte, or of the text's end.
    pub fn of(text: &[u8], at: usize) -> TextPlace
        requires { at ≤ length text.now }
        ensures { IsPlace text.now at result.line result.column }
    {
        let (begin, _) = line_around(text, at);
        let line = text[..at].iter().filter(|byte| **byte == NEWLINE).count() + 1;
        TextPlace {
            line,
            column: at - begin + 1,
        }
    }
}

/// The line around a byte of the text, or around its end: from where to where it goes, without its newline.
pub fn line_around(text: &[u8], at: usize) -> (usize, usize)
    requires { at ≤ length text.now }
    ensures { IsLineAround text.now at result.0 result.1 }
{
    (begin_of_line(text, at), end_of_line(text, at))
}

/// Where the line begins that goes on at this place.
fn begin_of_line(text: &[u8], at: usize) -> usize
    requires { at ≤ length text.now }
    ensures reached { result ≤ at }
    ensures begins { (result ≡ 0) ⊎ (slice_index text.now (result - 1) ≡ 10) }
    ensures unbroken { (k : ℕ) → result ≤ k → k < at → slice_index text.now k ≢ 10 }
{
    let mut begin = at;
    while begin > 0 && text[begin - 1] != NEWLINE {
        begin -= 1;
    }
    begin
}

/// Where the line ends that goes on at this place.
fn end_of_line(text: &[u8], at: usize) -> usize
    requires { at ≤ length text.now }
    ensures goes_on { at ≤ result }
    ensures within { result ≤ length text.now }
    ensures ends { (result ≡ length text.now) ⊎ (slice_index text.now result ≡ 10) }
    ensures unbroken { (k : ℕ) → at ≤ k → k < result → slice_index text.now k ≢ 10 }
{
    let mut end = at;
    while end < text.len() && text[end] != NEWLINE {
        end += 1;
    }
    end
}
