//! Reads and writes, and whether one of them failed.

ghost use Rattle.std.specs.Prelude.{◌≡◌, ◌↔◌, ◌⊎◌, false, IsTrue};
ghost use Rattle.std.specs.Io.{ReadsAtMost, WritesAtMost};
ghost use Rattle.std.specs.Io.KnownBytes.{ReadConsumes, WriteAppends};
ghost use Rattle.command_lines.specs.Failing.{HasReadFailed, HasWriteFailed};

use std::io;
use std::io::{Read, Write};

/// Whether a read or a write failed: its answer was an error, or a write took none of the bytes that it was given. The two
/// functions here alone set it, as the reader and the writer answer.
#[derive(Clone, Copy)]
pub struct Failing {
    is_set: bool,
}

impl Failing {
    /// None was made yet.
    pub fn none() -> Failing
        ensures { result.is_set ≡ false }
    {
        Failing { is_set: false }
    }
}

/// Whether a read failed, and whether a write did.
#[derive(Clone, Copy)]
pub struct Failures {
    /// Of the reads.
    pub reading: Failing,
    /// Of the writes.
    pub writing: Failing,
}

impl Failures {
    /// None was made yet.
    pub fn none() -> Failures {
        Failures {
            reading: Failing::none(),
            writing: Failing::none(),
        }
    }
}

/// Writes the first of these bytes, as the writer does, and answers as it does.
pub fn write<W: Write>(writer: &mut W, failing: &mut Failing, bytes: &[u8]) -> io::Result<usize>
    ensures bound { WritesAtMost result bytes.now }
    ensures bytes { WriteAppends (W.contents writer.old) (W.contents writer.new) result bytes.now }
    ensures failed { IsTrue failing.new.is_set ↔ (IsTrue failing.old.is_set ⊎ HasWriteFailed result bytes.now) }
{
    let answer = writer.write(bytes);
    let has_failed = match &answer {
        Ok(taken) => *taken == 0 && !bytes.is_empty(),
        Err(_) => true,
    };
    if has_failed {
        failing.is_set = true;
    }
    answer
}

/// Reads as the reader does, and answers as it does.
pub fn read<R: Read>(reader: &mut R, failing: &mut Failing, chunk: &mut [u8]) -> io::Result<usize>
    ensures bound { ReadsAtMost result chunk.new }
    ensures bytes { ReadConsumes (R.remaining reader.old) (R.remaining reader.new) result chunk.new }
    ensures failed { IsTrue failing.new.is_set ↔ (IsTrue failing.old.is_set ⊎ HasReadFailed result) }
{
    let answer = reader.read(chunk);
    if answer.is_err() {
        failing.is_set = true;
    }
    answer
}
