//! The inputs of command lines.

use crate::files::case::Case;
use crate::files::fault::CaseFault;
use crate::files::section::CasePart;
use std::alloc::{AllocError, Global};

/// The texts that a command takes, in their order; `None` for words that are no command.
fn texts_of(words: &[&str]) -> Option<&'static [CasePart]> {
    let (command, options) = words.split_first()?;
    match *command {
        "meta" | "certify" => Some(&[CasePart::Program]),
        "check" => Some(&[CasePart::Program, CasePart::Certificate]),
        "run" => match options.first() {
            Some(option) if *option == "--unchecked" => Some(&[
                CasePart::Program,
                CasePart::Script,
            ]),
            _ => Some(&[CasePart::Program, CasePart::Certificate, CasePart::Script]),
        },
        _ => None,
    }
}

/// Whether the words ask for a certificate that the case doesn't have.
pub fn wants_certificate(case: &Case<'_>, words: &[&str]) -> bool {
    let wants = texts_of(words).is_some_and(|parts| parts.contains(&CasePart::Certificate));
    wants && !case.has(CasePart::Certificate) && !case.has(CasePart::Input)
}

/// The input of a command line of the case: the whole one that it gives, or the texts that the words ask for, parted by
/// lines `%%`. Where it has no certificate this one takes its place. Words that are no command get what there is.
pub fn input_of(
    alloc: Global,
    case: &Case<'_>,
    words: &[&str],
    certificate: Option<&[u8]>,
) -> Result<Vec<u8>, CaseFault> {
    if let Some(input) = case.text(alloc, CasePart::Input)? {
        return Ok(input);
    }
    let asked = texts_of(words);
    let parts = asked.unwrap_or(&[CasePart::Program, CasePart::Certificate, CasePart::Script]);
    let mut input = Vec::new(alloc);
    let mut is_first = true;
    for part in parts {
        let text = match case.text(alloc, *part)? {
            Some(text) => text,
            None => match (*part, certificate) {
                (CasePart::Certificate, Some(made)) => Vec::from_slice(alloc, made)?,
                _ if asked.is_none() => continue,
                _ => return Err(CaseFault::Malformed(case.line(), "the case lacks a text")),
            },
        };
        if !is_first {
            part_from(&mut input)?;
        }
        input.extend_from_slice(text.as_slice())?;
        is_first = false;
    }
    Ok(input)
}

/// Adds a line `%%`.
fn part_from(input: &mut Vec<u8>) -> Result<(), CaseFault> {
    if input.last().is_some_and(|byte| *byte != b'\n') {
        input.push(b'\n').map_err(AllocError::from)?;
    }
    input.extend_from_slice(b"%%\n")?;
    Ok(())
}
