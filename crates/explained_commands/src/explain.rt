//! What is said to a person of what a command line comes to.

use crate::explanations::{Asked, push_fault, push_outcome, push_usage};
use crate::placed::some_text;
use class_lang::Limits;
use command_lines::CommandLine;
use std::alloc::{AllocError, Global};
use trace_tool::{Outcome, limits_of};

/// Explains what the words come to on this input, or where it isn't known, without a place. `None` where there is nothing to
/// explain: a command did what it was asked, memory was wanting, or there is no input.
pub fn explanation<M: Drop>(
    alloc: Global,
    words: &[&str],
    input: Option<&[u8]>,
    outcome: &Outcome<M>,
) -> Result<Option<String>, AllocError> {
    let mut text = String::new(alloc);
    match outcome {
        Outcome::Usage(fault) => push_usage(&mut text, alloc, words, input, *fault)?,
        Outcome::Program(outcome) => {
            let asked = Asked {
                alloc,
                limits: limits_for(words),
                is_settling: words.contains(&"--settling"),
                input,
            };
            push_outcome(&mut text, asked, outcome)?;
        }
        Outcome::Ran(ran) => {
            if let Err(fault) = ran.ended {
                push_fault(&mut text, fault)?;
            }
        }
        Outcome::NoInput(_) | Outcome::Memory => {}
    }
    Ok(some_text(text))
}

/// How large a program may be where these are the words.
fn limits_for(words: &[&str]) -> Limits {
    match CommandLine::of(words) {
        Some(line) => limits_of(line.is_wide),
        None => Limits::standard(),
    }
}
