//! A whole trace, line by line.

ghost use Rattle.std.specs.Prelude.{◌≢◌, [], OnOk};
ghost use Rattle.traces.specs.Shown.{ShowsTrace, ShowsRead};

use crate::layout::layout::push_shown;
use std::alloc::{AllocError, Global};
use std::io;
use std::io::{BufRead, ErrorKind, Write};
use texts::split_line;

const NEWLINE: u8 = 10;

/// Writes each line that the reader has left as it is shown, to the reader's end. Of the trace one line is kept at a time.
///
/// The error is the reader's, the writer's, or that memory ran out. Then the lines before were written, each but the
/// last one of them in full.
pub fn show_trace<R: BufRead, W: Write>(
    alloc: Global,
    reader: &mut R,
    w: &mut W,
    colours: bool,
) -> io::Result<()>
    ensures { OnOk result (ShowsTrace colours (R.remaining reader.old) (W.contents w.old) (W.contents w.new)) }
{
    let mut read = Vec::new(alloc);
    let mut shown = Vec::new(alloc);
    for _ in 0..u64::MAX {
        read.clear();
        if reader.read_until(NEWLINE, &mut read)? == 0 {
            w.flush()?;
            return Ok(());
        }
        shown.clear();
        push_read(&mut shown, read.as_slice(), colours)?;
        w.write_all(shown.as_slice())?;
    }
    Err(io::Error::from(ErrorKind::TimedOut))
}

/// Adds a line as it is shown, with its newline where it has one.
fn push_read(shown: &mut Vec<u8>, read: &[u8], colours: bool) -> Result<(), AllocError>
    requires { read.now ≢ [] }
    ensures { OnOk result (ShowsRead colours read.now shown.old.items shown.new.items) }
{
    let Some((line, _)) = split_line(read) else {
        return Ok(());
    };
    push_shown(shown, line, colours)?;
    if line.len() < read.len() {
        shown.push(NEWLINE)?;
    }
    Ok(())
}
