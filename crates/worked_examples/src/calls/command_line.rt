//! Command lines, answered by a call.

use crate::calls::task::NativesTask;
use anyhow::Result;
use native_slots::Natives;
use std::alloc::Global;
use std::io::{Read, Write};
use trace_tool::{command, respond};

/// The words of a run that isn't checked.
pub const UNCHECKED: &[&str] = &["run", "--unchecked", "256"];

/// The words of a run whose program has a certificate.
pub const CHECKED: &[&str] = &["run"];

/// A command line with its input, and what it answers: what it writes and its exit status.
#[derive(Drop)]
pub struct CommandRun<'a> {
    alloc: Global,
    words: &'a [&'a str],
    input: &'a [u8],
    pub output: Vec<u8>,
    pub status: u8,
}

impl<'a> CommandRun<'a> {
    /// A command line that has answered nothing yet.
    pub fn new(alloc: Global, words: &'a [&'a str], input: &'a [u8]) -> CommandRun<'a> {
        CommandRun {
            alloc,
            words,
            input,
            output: Vec::new(alloc),
            status: 0,
        }
    }
}

impl NativesTask for CommandRun<'_> {
    fn perform(&mut self, natives: Natives) -> Result<()> {
        let input = Ok(self.input);
        self.status = respond(self.alloc, self.words, input, natives, &mut self.output).status?;
        Ok(())
    }
}

/// The exit status of a run that isn't checked and has no natives, or none where the writer failed.
pub fn run_from<R: Read, W: Write>(alloc: Global, reader: &mut R, writer: &mut W) -> Option<u8> {
    let natives = Natives::of(Vec::new(alloc));
    match command(alloc, UNCHECKED, reader, natives, writer).status {
        Ok(status) => Some(status),
        Err(_) => None,
    }
}
