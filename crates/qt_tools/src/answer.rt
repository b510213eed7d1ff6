//! What `gammonfig` answers to words.

use crate::fault::ToolFault;
use crate::words::WIDE;
use explained_commands::explained_command;
use native_slots::Natives;
use std::alloc::{AllocError, Global};
use std::io::Write;
use trace_tool::Machine;

/// What `gammonfig` answers to words on an input.
#[derive(Drop)]
pub struct ProvedAnswer {
    /// Its exit status; 1 where it can't be written.
    pub status: u8,
    /// What it writes on standard output.
    pub output: Vec<u8>,
    /// What it says on standard error.
    said: Vec<u8>,
}

impl ProvedAnswer {
    /// The answer to these words on this input, without a word on refused events.
    pub fn of(alloc: Global, words: &[&str], input: &[u8]) -> Result<ProvedAnswer, AllocError> {
        let mut reader = input;
        let mut output = Vec::new(alloc);
        let mut said = Vec::new(alloc);
        let status = explained_command::<Natives, Machine<Natives>, _, _, _>(
            alloc,
            words,
            &mut reader,
            Natives::of(Vec::new(alloc)),
            &mut output,
            &mut said,
            0,
        )
        .status
        .unwrap_or(1);
        Ok(ProvedAnswer {
            status,
            output,
            said,
        })
    }

    /// Says what it says.
    pub fn say(&self, rt: &HostRuntime) {
        rt.stderr().write_all(self.said.as_slice()).ok();
    }
}

/// The fault; where it is that this program is refused, what `gammonfig meta` says of that is said, with its place.
pub fn explained(
    rt: &HostRuntime,
    is_wide: bool,
    program: &[u8],
    fault: ToolFault,
) -> Result<ToolFault, AllocError> {
    let ToolFault::Refused(number) = fault else {
        return Ok(fault);
    };
    let mut words = Vec::new(rt.alloc());
    if is_wide {
        words.push(WIDE)?;
    }
    words.push("meta")?;
    ProvedAnswer::of(rt.alloc(), words.as_slice(), program)?.say(rt);
    Ok(ToolFault::Explained(number))
}
