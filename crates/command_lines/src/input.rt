ghost use Rattle.std.specs.Prelude.{◌≡◌, ◌<◌, length, take, IsTrue, IfOk, IfSome};
ghost use Rattle.std.specs.Io.KnownBytes.{Keeps};
ghost use Rattle.command_lines.specs.Failing.{IfUnread};
ghost use Rattle.command_lines.specs.Inputs.{ReadsOn};

use crate::watched::{Failing, read};
use std::alloc::Global;
use std::io;
use std::io::{ErrorKind, Read};
use thiserror::Error;

/// The largest input, in bytes.
pub const LARGEST_INPUT: usize = 67108864;

/// So many bytes are read at a time.
const CHUNK: usize = 16384;

/// So many times a read that a signal interrupts is tried again, and once more for each byte that was read.
const PATIENCE: usize = 16;

/// Why there is no input.
#[derive(Clone, Copy, Debug, Error)]
pub enum InputFault {
    /// A read failed, for this reason.
    #[error("the input can't be read")]
    Unread(io::Error),
    /// A growth of memory was refused.
    #[error("out of memory")]
    Memory,
}

/// Reads all that is left, but no more than a byte past the largest input. Each error of the reader is a read that
/// failed, whatever its kind, but for an interrupted read, which is tried again, sixteen times and once more for each byte
/// that was read; running out of memory is only this function's own.
pub fn read_input<R: Read>(
    alloc: Global,
    reader: &mut R,
    failing: &mut Failing,
) -> Result<Vec<u8>, InputFault>
    ensures input { IfOk result (λ input.
        IfSome (R.remaining reader.old) (λ left. input.items ≡ take 67108865 left)) }
    ensures faults { IfUnread result (IsTrue failing.new.is_set) }
{
    let mut input = Vec::new(alloc);
    let mut chunk = [0u8; CHUNK];
    let mut patience = PATIENCE;
    while input.len() <= LARGEST_INPUT {
        let room = CHUNK.min(LARGEST_INPUT + 1 - input.len());
        match read_on(reader, failing, &mut chunk[..room], &mut input) {
            Ok(0) => return Ok(input),
            Ok(count) => patience = patience.saturating_add(count),
            Err(InputFault::Unread(error))
                if patience > 0 && error.kind() == ErrorKind::Interrupted => patience -= 1,
            Err(fault) => return Err(fault),
        }
    }
    Ok(input)
}

/// Reads once, and adds what was read to the input. The answer is how many bytes that were.
fn read_on<R: Read>(
    reader: &mut R,
    failing: &mut Failing,
    chunk: &mut [u8],
    input: &mut Vec<u8>,
) -> Result<usize, InputFault>
    requires { 0 < length chunk.old }
    ensures read { IfOk result
        (ReadsOn (R.remaining reader.old) (R.remaining reader.new) input.old.items input.new.items (length chunk.old)) }
    ensures unread { IfUnread result (Keeps (R.remaining reader.old) (R.remaining reader.new) × (input.new.items ≡ input.old.items)) }
    ensures faults { IfUnread result (IsTrue failing.new.is_set) }
{
    match read(reader, failing, chunk) {
        Ok(count) => match input.extend_from_slice(&chunk[..count]) {
            Ok(()) => Ok(count),
            Err(_) => Err(InputFault::Memory),
        },
        Err(error) => Err(InputFault::Unread(error)),
    }
}
