//! Examples: command lines with their inputs, each in files of its own, as a person runs them.

use crate::files::answering::answered;
use std::alloc::AllocError;
use std::io::ErrorKind;
use std::rt::Files;
use std::{fs, io, str};

/// What an example's files say it answers.
#[derive(Drop)]
struct ExampleOutput {
    output: Vec<u8>,
    status: String,
}

/// Runs the example NAME, and writes whether it ends as its files say, or what it writes instead. `NAME.args` has its
/// words, one a line, `NAME.txt` its input, `NAME.out` what it has to write, and `NAME.status` its exit status in decimal,
/// 0 where there is no such file. The errors are that another of them can't be read, that the words aren't text, that a
/// line isn't written, or that memory is refused.
pub fn tell_example<R: Files + Print + AllocGlobal>(rt: &R, name: &str) -> io::Result<()> {
    let lines = text_of(rt, name, "args")?;
    let input = bytes_of(rt, name, "txt")?;
    let words = words_of(rt, lines.as_str())?;
    let mut found = Vec::new(rt.alloc());
    let mut errors = Vec::new(rt.alloc());
    let status = answered(
        rt.alloc(),
        words.as_slice(),
        input.as_slice(),
        false,
        &mut found,
        &mut errors,
    )?;
    let wanted = ExampleOutput {
        output: bytes_of(rt, name, "out")?,
        status: status_of(rt, name)?,
    };
    tell_answer(rt, name, &wanted, found.as_slice(), status)
}

/// Writes whether this text and status are those that are wanted, or what they are.
fn tell_answer<R: Print + AllocGlobal>(
    rt: &R,
    name: &str,
    wanted: &ExampleOutput,
    found: &[u8],
    status: u8,
) -> io::Result<()> {
    let status = format!(in rt.alloc(); "{status}")?;
    if wanted.output.as_slice() == found && wanted.status.as_str().trim() == status.as_str() {
        println!(rt; "{name}: as written")
    } else {
        let text = str::from_utf8(found).unwrap_or("no text");
        println!(rt; "{name}: ends with {status}, and writes\n{text}")
    }
}

/// The words of a command line that stand one a line.
fn words_of<'a, R: AllocGlobal>(rt: &R, lines: &'a str) -> Result<Vec<&'a str>, AllocError> {
    let mut words = Vec::new(rt.alloc());
    for word in lines.lines() {
        words.push(word)?;
    }
    Ok(words)
}

fn bytes_of<R: Files + AllocGlobal>(rt: &R, name: &str, ending: &str) -> io::Result<Vec<u8>> {
    let path = format!(in rt.alloc(); "{name}.{ending}")?;
    fs::read(rt, path)
}

fn text_of<R: Files + AllocGlobal>(rt: &R, name: &str, ending: &str) -> io::Result<String> {
    let path = format!(in rt.alloc(); "{name}.{ending}")?;
    fs::read_to_string(rt, path)
}

fn status_of<R: Files + AllocGlobal>(rt: &R, name: &str) -> io::Result<String> {
    match text_of(rt, name, "status") {
        Err(fault) if fault.kind() == ErrorKind::NotFound => {
            Ok(String::from_str(rt.alloc(), "0")?)
        }
        read => read,
    }
}
