//! Where two texts differ.

ghost use Rattle.std.specs.Prelude.{◌≡◌, ◌↔◌, IsNone};

/// The first line in which two texts differ.
#[derive(Clone, Copy)]
pub struct LineDifference<'a> {
    /// Its number, counted from 1.
    pub line: usize,
    /// The line as it has to be, with its newline; empty where the text ends before it.
    pub wanted: &'a [u8],
    /// The line as it is.
    pub found: &'a [u8],
}

/// The first line in which a text differs from what it has to be; `None` where they are equal.
pub fn first_difference<'a>(wanted: &'a [u8], found: &'a [u8]) -> Option<LineDifference<'a>>
    ensures { IsNone result ↔ (wanted.now ≡ found.now) }
{
    if wanted == found {
        return None;
    }
    let wanted_lines = wanted.split_inclusive(|byte| *byte == b'\n');
    let mut found_lines = found.split_inclusive(|byte| *byte == b'\n');
    let mut line = 1usize;
    for wanted in wanted_lines {
        let found = found_lines.next().unwrap_or(&[]);
        if wanted != found {
            return Some(LineDifference {
                line,
                wanted,
                found,
            });
        }
        line = line.saturating_add(1);
    }
    Some(LineDifference {
        line,
        wanted: &[],
        found: found_lines.next().unwrap_or(&[]),
    })
}
