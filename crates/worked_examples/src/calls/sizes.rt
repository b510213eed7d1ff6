//! As many objects as a run may create, and one more; and inputs as large as a command takes, and larger.

use crate::calls::command_line::{CommandRun, UNCHECKED};
use crate::calls::runs::{tell_answer, tell_text};
use crate::calls::task::NativesTask;
use anyhow::Result;
use native_slots::Natives;
use std::alloc::{AllocError, Global};

/// What the names of many objects are made of; no reserved word begins with one of the first 26.
const LETTERS: &[u8] = b"ABCDEFGHIJKLMNOPQRSTUVWXYZabcdefghijklmnopqrstuvwxyz0123456789_";

/// A letter of a name.
fn letter(number: usize) -> u8 {
    LETTERS.get(number).copied().unwrap_or(b'_')
}

/// A name of three letters, another one for each number below 103,194.
fn short_name(number: usize) -> [u8; 3] {
    [
        letter(number / 3969),
        letter(number / 63 % 63),
        letter(number % 63),
    ]
}

/// A program with the class C, and a script that creates so many objects of it.
fn creations(alloc: Global, count: usize) -> Result<Vec<u8>, AllocError> {
    let mut input = Vec::from_slice(alloc, b"class C { }\n%%\n")?;
    for number in 0..count {
        input.extend_from_slice(b"new ")?;
        input.extend_from_slice(&short_name(number))?;
        input.extend_from_slice(b" C\n")?;
    }
    Ok(input)
}

/// The lines of so many accepted events.
fn accepted_lines(alloc: Global, count: usize) -> Result<Vec<u8>, AllocError> {
    let mut lines = Vec::new(alloc);
    for number in 1..=count {
        lines.extend_from_slice(format!(in alloc; "event {number}\n")?.as_bytes())?;
    }
    Ok(lines)
}

/// Writes what is answered to as many events as create objects, and to inputs that are as large as may be and larger.
pub fn tell_sizes<R: Print + AllocGlobal>(rt: &R) -> Result<()> {
    tell_creations(rt)?;
    tell_bytes(rt, "An input of 64 MiB", 67108864)?;
    tell_bytes(rt, "One of a byte more", 67108865)
}

/// Writes how a run ends that creates as many objects as it may, and then tries to create one more, one of a name that is
/// used, and one of a class that isn't there: both are judged before the number of objects.
fn tell_creations<R: Print + AllocGlobal>(rt: &R) -> Result<()> {
    let mut input = creations(rt.alloc(), 100001)?;
    input.extend_from_slice(b"new AAA C\nnew Zzz D\n")?;
    let mut line = CommandRun::new(rt.alloc(), UNCHECKED, input.as_slice());
    line.perform(Natives::of(Vec::new(rt.alloc())))?;
    let accepted = accepted_lines(rt.alloc(), 100000)?;
    match line.output.strip_prefix(accepted.as_slice()) {
        Some(rest) => tell_text(
            rt,
            "100000 objects, and three more events",
            line.status,
            rest,
        ),
        None => tell_text(rt, "fewer objects", line.status, line.output.as_slice()),
    }
}

/// Writes what is answered to an input of so many bytes that has no program and no script.
fn tell_bytes<R: Print + AllocGlobal>(rt: &R, title: &str, count: usize) -> Result<()> {
    let mut input = vec![in rt.alloc(); b'\n'; count]?;
    if let Some(front) = input.first_chunk_mut::<2>() {
        *front = *b"%%";
    }
    let mut line = CommandRun::new(rt.alloc(), UNCHECKED, input.as_slice());
    line.perform(Natives::of(Vec::new(rt.alloc())))?;
    tell_answer(rt, title, &line)
}
