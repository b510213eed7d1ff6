//! Standard input and output.

use crate::fault::ToolFault;
use class_lang::Limits;
use std::io;
use std::io::{Read, Write};
use trace_tool::LARGEST_INPUT;

/// So many bytes are read: one more than an input may have, so that a longer one is refused.
pub const MOST_READ: u64 = LARGEST_INPUT as u64 + 1;

/// What standard input has, but no more than so many bytes.
pub fn input(rt: &HostRuntime, most: u64) -> Result<Vec<u8>, ToolFault> {
    let mut input = Vec::new(rt.alloc());
    match rt.reader().take(most).read_to_end(&mut input) {
        Ok(_) => Ok(input),
        Err(reason) => Err(ToolFault::Unread(reason)),
    }
}

/// What standard input has, where that isn't too long.
pub fn short_input(rt: &HostRuntime) -> Result<Vec<u8>, ToolFault> {
    let input = input(rt, MOST_READ)?;
    if input.len() > LARGEST_INPUT {
        return Err(ToolFault::TooLong);
    }
    Ok(input)
}

/// The program that standard input has: one byte more than it may have by these limits, so that a longer one is refused for its
/// length.
pub fn program(rt: &HostRuntime, limits: Limits) -> Result<Vec<u8>, ToolFault> {
    input(rt, (limits.bytes as u64).saturating_add(1))
}

/// Writes a text on standard output.
pub fn write(rt: &HostRuntime, text: &str) -> Result<(), ToolFault> {
    write_bytes(rt, text.as_bytes())
}

/// Writes bytes, which need be no text, on standard output.
pub fn write_bytes(rt: &HostRuntime, bytes: &[u8]) -> Result<(), ToolFault> {
    match written(rt, bytes) {
        Ok(()) => Ok(()),
        Err(reason) => Err(ToolFault::Unwritten(reason)),
    }
}

/// The same, with what the system says of a write that failed.
fn written(rt: &HostRuntime, bytes: &[u8]) -> io::Result<()> {
    let mut writer = io::writer(rt);
    writer.write_all(bytes)?;
    writer.flush()
}
