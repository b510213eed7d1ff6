//! What command lines answer.

use basic_types::Value;
use explained_commands::{FIRST_REFUSALS, WriteFault, explained_command};
use native_slots::{Natives, built_in};
use qt_runtime::Machine;
use std::alloc::Global;
use std::io;

/// Does what the words say on an input, with the program's own native: what is written on standard output goes to
/// `output`, what on standard error to `errors`. Answers the exit status.
pub fn answered(
    alloc: Global,
    words: &[&str],
    input: &[u8],
    tells_refusals: bool,
    output: &mut Vec<u8>,
    errors: &mut Vec<u8>,
) -> io::Result<u8> {
    let work = Box::new(alloc, move |arguments: &[Value], _: &[Value]| {
        built_in::answer(alloc, arguments)
    })?;
    let natives = built_in::natives(alloc, work)?;
    let most_refusals = if tells_refusals {
        usize::MAX
    } else {
        FIRST_REFUSALS
    };
    let mut reader = input;
    let explained = explained_command::<Natives, Machine<Natives>, _, _, _>(
        alloc,
        words,
        &mut reader,
        natives,
        output,
        errors,
        most_refusals,
    );
    match explained.status {
        Ok(status) => Ok(status),
        Err(WriteFault::Failed(fault)) => Err(fault),
    }
}
