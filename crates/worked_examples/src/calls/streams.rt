//! Readers and writers that give and take little, and that fail.

use crate::calls::command_line::run_from;
use crate::calls::runs::tell_text;
use anyhow::Result;
use std::alloc::Global;
use std::io::{self, ErrorKind, Read, Write};

/// A program whose lamp shows how it is pressed, and a script that presses it.
const INPUT: &[u8] =
    b"class Lamp { property int level; signal pressed(int); slot show(int v) { set this.level = v; } } wire Lamp pressed(int) -> Lamp show(int) direct;\n%%\nnew a Lamp\nconnect a pressed(int) a show(int) direct\nemit a.pressed(3)\n";

/// What is written of it.
const PRESSED: &str =
    "event 1\nevent 2\nevent 3\n1 emit a.pressed(3)\n2 call a.show(3)\n3 set a.level 3\n";

/// Gives a byte at a time, and fails for this reason where so many are left.
#[derive(Drop)]
struct Drops<'a> {
    left: &'a [u8],
    fails_at: Option<usize>,
    reason: ErrorKind,
}

impl Read for Drops<'_> {
    fn read(&mut self, buf: &mut [u8]) -> io::Result<usize> {
        if self.fails_at == Some(self.left.len()) {
            return Err(io::Error::from(self.reason));
        }
        match (self.left.split_first(), buf.first_mut()) {
            (Some((byte, left)), Some(place)) => {
                *place = *byte;
                self.left = left;
                Ok(1)
            }
            _ => Ok(0),
        }
    }
}

/// Takes three bytes at a time, and once it holds so many it fails for this reason, or takes none where there is none.
#[derive(Drop)]
struct Full {
    held: Vec<u8>,
    room: usize,
    reason: Option<ErrorKind>,
}

impl Write for Full {
    fn write(&mut self, buf: &[u8]) -> io::Result<usize> {
        let taken = buf
            .len()
            .min(3)
            .min(self.room.saturating_sub(self.held.len()));
        if let Some(reason) = self.reason
            && taken == 0
            && !buf.is_empty()
        {
            return Err(io::Error::from(reason));
        }
        self.held.extend_from_slice(&buf[..taken])?;
        Ok(taken)
    }

    fn flush(&mut self) -> io::Result<()> {
        Ok(())
    }
}

/// Writes what is answered to readers that give a byte at a time, and to writers that take three at a time.
pub fn tell_streams<R: Print + AllocGlobal>(rt: &R) -> Result<()> {
    for (title, fails_at, reason) in [
        (
            "A reader that gives a byte at a time",
            None,
            ErrorKind::TimedOut,
        ),
        ("One that fails at the end", Some(0), ErrorKind::TimedOut),
        (
            "One that lacks memory 7 bytes before it",
            Some(7),
            ErrorKind::OutOfMemory,
        ),
        (
            "One that fails at once",
            Some(INPUT.len()),
            ErrorKind::UnexpectedEof,
        ),
    ] {
        let reader = Drops {
            left: INPUT,
            fails_at,
            reason,
        };
        tell_reader(rt, title, reader)?;
    }
    tell_writers(rt, "Writers that fail", Some(ErrorKind::TimedOut))?;
    tell_writers(rt, "Writers that take no more", None)
}

/// Writes the exit status of a run with this reader, and what it writes.
fn tell_reader<R: Print + AllocGlobal>(rt: &R, title: &str, reader: Drops<'_>) -> Result<()> {
    let mut reader = reader;
    let mut found = Vec::new(rt.alloc());
    let status = run_from(rt.alloc(), &mut reader, &mut found);
    match status {
        Some(status) => tell_text(rt, title, status, found.as_slice()),
        None => tell_text(rt, "no status", 1, found.as_slice()),
    }
}

/// Writes of writers that are full after each number of bytes how many fail and hold the first bytes, as many as they have
/// room for, and how many don't fail and hold all.
fn tell_writers<R: Print + AllocGlobal>(
    rt: &R,
    title: &str,
    reason: Option<ErrorKind>,
) -> Result<()> {
    let (failing, whole) = writers(rt.alloc(), reason);
    println!(rt;
        "{title}: {failing} have the first bytes, as many as they have room for, and {whole} has all"
    )?;
    Ok(())
}

/// With each room up to what is written: how many writers fail and hold the first bytes that they have room for, and how
/// many don't fail and hold all.
fn writers(alloc: Global, reason: Option<ErrorKind>) -> (u32, u32) {
    let (mut failing, mut whole) = (0u32, 0u32);
    for room in 0..=PRESSED.len() {
        let mut writer = Full {
            held: Vec::new(alloc),
            room,
            reason,
        };
        let mut reader = INPUT;
        let status = run_from(alloc, &mut reader, &mut writer);
        let is_begun = writer.held.as_slice() == &PRESSED.as_bytes()[..room];
        match status {
            None if is_begun && room < PRESSED.len() => failing = failing.saturating_add(1),
            Some(0) if is_begun && room == PRESSED.len() => whole = whole.saturating_add(1),
            _ => {}
        }
    }
    (failing, whole)
}
