//! The word `session`: runs a script as a test.

use crate::answer::ProvedAnswer;
use crate::fault::ToolFault;
use crate::parted::split_text;
use crate::streams::{MOST_READ, input, write, write_bytes};
use crate::words::WIDE;
use script_tests::{TestFormat, judge, record, report};
use std::alloc::{AllocError, Global};
use texts::{MOST_BYTES, number};

/// The option that needs no certificate.
const UNCHECKED: &str = "--unchecked";

/// What is done with what happened.
#[derive(Clone, Copy)]
enum SessionTask {
    /// It is told which events went otherwise than the script's comments expect.
    Tell(TestFormat),
    /// The script is written, with comments that expect what happened.
    Record,
}

/// Runs the script on standard input as `gammonfig run` does with these words, but for a first `--tap` or `--record`, and
/// writes which events went otherwise than its comments expect, or the script with comments that they meet. With `--wide` the
/// run has it too.
pub fn session(rt: &HostRuntime, is_wide: bool, words: &[&str]) -> Result<(), ToolFault> {
    let (task, options) = match words {
        [word, options @ ..] if *word == "--tap" => (SessionTask::Tell(TestFormat::Tap), options),
        [word, options @ ..] if *word == "--record" => (SessionTask::Record, options),
        _ => (SessionTask::Tell(TestFormat::Plain), words),
    };
    // The command takes none of an input that is longer than it may be.
    let input = input(rt, MOST_READ)?;
    let trace = trace_of(rt, is_wide, options, input.as_slice())?;
    let script = script_of(options, input.as_slice()).unwrap_or(&[]);
    match task {
        SessionTask::Tell(form) => tell(rt, script, trace.as_slice(), form),
        SessionTask::Record => record_run(rt, script, trace.as_slice()),
    }
}

/// Writes which events of the script went otherwise than its comments expect.
fn tell(rt: &HostRuntime, script: &[u8], trace: &[u8], form: TestFormat) -> Result<(), ToolFault> {
    let tests = judge(rt.alloc(), script, trace)?;
    let (text, failed) = report(rt.alloc(), tests.as_slice(), form)?;
    write(rt, text.as_str())?;
    as_expected(failed)
}

/// Writes the script with comments that expect what happened, and says on standard error of how many events they changed,
/// and what still is otherwise: where a fault stopped the run, the events behind it.
fn record_run(rt: &HostRuntime, script: &[u8], trace: &[u8]) -> Result<(), ToolFault> {
    let alloc = rt.alloc();
    let tests = judge(alloc, script, trace)?;
    let recorded = record(alloc, script, tests.as_slice())?;
    if recorded.script.len() > MOST_BYTES {
        return Err(ToolFault::LongScript);
    }
    let tests = judge(alloc, recorded.script.as_slice(), trace)?;
    let (text, failed) = report(alloc, tests.as_slice(), TestFormat::Plain)?;
    write_bytes(rt, recorded.script.as_slice())?;
    let changed = recorded.changed;
    eprintln!(rt; "the comments of {changed} events are recorded anew").ok();
    eprint!(rt; "{text}").ok();
    as_expected(failed)
}

/// That so many events went otherwise than is expected.
fn as_expected(failed: usize) -> Result<(), ToolFault> {
    match failed {
        0 => Ok(()),
        _ => Err(ToolFault::Otherwise),
    }
}

/// The trace of a run of this input with these options, and with `--wide` or without it. Where it isn't run, what `run` says of
/// that is said on standard error.
fn trace_of(
    rt: &HostRuntime,
    is_wide: bool,
    options: &[&str],
    input: &[u8],
) -> Result<Vec<u8>, ToolFault> {
    let words = run_words(rt.alloc(), is_wide, options)?;
    let answer = ProvedAnswer::of(rt.alloc(), words.as_slice(), input)?;
    let output = answer.output.as_slice();
    let status = answer.status;
    let fault = match status {
        0 | 4 => return Ok(answer.output),
        2 => ToolFault::TextRefused(number_in(b"refused ", output)),
        3 => ToolFault::Invalid(number_in(b"no ", output)),
        _ if output == b"usage\n".as_slice() => return Err(ToolFault::Usage),
        _ => return Err(ToolFault::Memory),
    };
    answer.say(rt);
    Err(fault)
}

/// The words of `run` with these options, and with `--wide` or without it.
fn run_words<'w>(
    alloc: Global,
    is_wide: bool,
    options: &[&'w str],
) -> Result<Vec<&'w str>, AllocError> {
    let mut words = Vec::new(alloc);
    if is_wide {
        words.push(WIDE)?;
    }
    words.push("run")?;
    for option in options {
        words.push(*option)?;
    }
    Ok(words)
}

/// The number behind these words in the first line of an output; 0 where there is none.
fn number_in(words: &[u8], output: &[u8]) -> u64 {
    let line = output.split(|byte| *byte == b'\n').next().unwrap_or(&[]);
    let told = line.strip_prefix(words).unwrap_or(&[]);
    let digits = told.split(|byte| *byte == b' ').next().unwrap_or(&[]);
    number(digits, u64::MAX).unwrap_or(0)
}

/// The script of an input of `run` with these options, which is its last text.
fn script_of<'i>(options: &[&str], input: &'i [u8]) -> Option<&'i [u8]> {
    let borders = if options.contains(&UNCHECKED) { 1 } else { 2 };
    let mut script = input;
    for _ in 0..borders {
        let (_, rest) = split_text(script)?;
        script = rest;
    }
    Some(script)
}
