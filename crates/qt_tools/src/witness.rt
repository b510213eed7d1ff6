//! The word `witness`: a script whose run ends as the refusal of a program warns.

use crate::answer::explained;
use crate::fault::ToolFault;
use crate::streams::{program, write};
use native_slots::Natives;
use run_witness::{SearchOutcome, find_witness};
use trace_tool::limits_of;

/// Writes such a script for the program on standard input, which may be a large one with `--wide`.
pub fn witness(rt: &HostRuntime, is_wide: bool, words: &[&str]) -> Result<(), ToolFault> {
    if !words.is_empty() {
        return Err(ToolFault::Usage);
    }
    let limits = limits_of(is_wide);
    let program = program(rt, limits)?;
    let program = program.as_slice();
    let natives = Natives::of(Vec::new(rt.alloc()));
    match find_witness(rt.alloc(), limits, program, &natives) {
        Ok(SearchOutcome::Found(script)) => write(rt, script.as_str()),
        Ok(SearchOutcome::NotFound) => Err(ToolFault::NoWitness),
        Ok(SearchOutcome::Certified) => Err(ToolFault::Certified),
        Ok(SearchOutcome::Settles) => Err(ToolFault::Settles),
        Err(fault) => Err(explained(rt, is_wide, program, fault.into())?),
    }
}
