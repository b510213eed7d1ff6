//! The program: the process's words and input go to a command, with one native, and the command's exit status is the
//! process's. What another answer than success means goes to standard error.
#![tactic(auto)]

use basic_types::Value;
use explained_commands::{
    EXPLAIN, FIRST_REFUSALS, WriteFault, explained_command, is_asked, tell_fault,
};
use native_slots::{Natives, built_in};
use qt_runtime::Machine;
use std::alloc::{AllocError, Global};
use std::io::{ErrorKind, Write};
use std::process::ExitCode;
use std::{env, io, mem};

/// The exit status of a run with `--strict` in which an event was refused that no comment expects.
const UNEXPECTED: u8 = 3;

fn main(rt: HostRuntime) -> ExitCode {
    match start(&rt) {
        Ok(status) => status,
        Err(AllocError) => memory(&rt),
    }
}

/// Takes the process's words, and does what they say. The error is that there was no memory for the words or the native.
fn start(rt: &HostRuntime) -> Result<ExitCode, AllocError> {
    let words = match env::args(rt) {
        Ok(words) => words,
        Err(fault) => {
            return match fault.kind() {
                ErrorKind::OutOfMemory => Err(AllocError),
                // Words that aren't text are no command, as an empty word isn't.
                _ => answer(rt, &[""]),
            };
        }
    };
    let words = words.skip(1).collect::<Vec<String>>(rt.alloc())?;
    let words = words
        .iter()
        .map(String::as_str)
        .collect::<Vec<&str>>(rt.alloc())?;
    answer(rt, words.as_slice())
}

/// Does what the words say, on standard input, output and error, where programs may declare the native `twice(int)` of
/// `Doubler`: it sets `out` to twice its argument, which is kept within 32 bits, and emits `done(int)` with it.
fn answer(rt: &HostRuntime, words: &[&str]) -> Result<ExitCode, AllocError> {
    let alloc = rt.alloc();
    let work = Box::new(alloc, move |arguments: &[Value], _: &[Value]| {
        built_in::answer(alloc, arguments)
    })?;
    let natives = built_in::natives(alloc, work)?;
    let tells_all = env::var(rt, EXPLAIN).is_ok_and(|value| is_asked(value.as_str()));
    let most_refusals = if tells_all {
        usize::MAX
    } else {
        FIRST_REFUSALS
    };
    let mut reader = rt.reader();
    let mut writer = io::writer(rt);
    let mut errors = rt.stderr();
    let (words, is_strict) = without_strict(alloc, words)?;
    let explained = explained_command::<Natives, Machine<Natives>, _, _, _>(
        alloc,
        words.as_slice(),
        &mut reader,
        natives,
        &mut writer,
        &mut errors,
        most_refusals,
    );
    let ended = match explained.status {
        Ok(0) if is_strict && explained.is_unexpected => Ok(UNEXPECTED),
        ended => ended,
    };
    // The process ends here: its memory goes back in one piece.
    mem::forget(explained);
    Ok(flushed(ended, &mut writer, &mut errors))
}

/// The words without a `--strict` right behind `run`, and whether there was one.
fn without_strict<'w>(
    alloc: Global,
    words: &[&'w str],
) -> Result<(Vec<&'w str>, bool), AllocError> {
    let mut left: Vec<&'w str> = Vec::new(alloc);
    let mut is_strict = false;
    for word in words {
        let is_behind_run = left.last().is_some_and(|last: &&str| *last == "run");
        if *word == "--strict" && is_behind_run && !is_strict {
            is_strict = true;
        } else {
            left.push(*word)?;
        }
    }
    Ok((left, is_strict))
}

/// The process's exit status: the command's, once all that it wrote has left the process too. Where that fails, the
/// reason goes to `errors`.
fn flushed<W: Write, E: Write>(
    ended: Result<u8, WriteFault>,
    writer: &mut W,
    errors: &mut E,
) -> ExitCode {
    let Ok(status) = ended else {
        return ExitCode::FAILURE;
    };
    match writer.flush() {
        Ok(()) => ExitCode::from(status),
        Err(reason) => {
            tell_fault(errors, WriteFault::Failed(reason));
            ExitCode::FAILURE
        }
    }
}

/// There was no memory for the words or the native.
fn memory(rt: &HostRuntime) -> ExitCode {
    println!(rt; "memory").ok();
    ExitCode::FAILURE
}
