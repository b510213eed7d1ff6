//! The second program: words for authors of Qt code, beside the five commands of `gammonfig`. What goes wrong is said on
//! standard error.
#![tactic(auto)]

mod accepted;
mod answer;
mod fault;
mod graph;
mod import;
mod parted;
mod session;
mod streams;
mod verdict;
mod view;
mod witness;
mod words;

use crate::fault::ToolFault;
use crate::graph::graph;
use crate::import::import_classes;
use crate::session::session;
use crate::verdict::tell_verdict;
use crate::view::view;
use crate::witness::witness;
use crate::words::{WIDE, shown, words};
use std::process::ExitCode;
use trace_tool::limits_of;

fn main(rt: HostRuntime) -> ExitCode {
    match start(&rt) {
        Ok(()) => ExitCode::SUCCESS,
        Err(fault) => {
            eprintln!(rt; "qt_tools: {fault}").ok();
            ExitCode::from(fault.status())
        }
    }
}

/// Takes the process's words, and does what they say.
fn start(rt: &HostRuntime) -> Result<(), ToolFault> {
    let given = words(rt)?;
    let shown = shown(rt.alloc(), given.as_slice())?;
    let words = shown
        .iter()
        .map(String::as_str)
        .collect::<Vec<&str>>(rt.alloc())?;
    match words.as_slice() {
        [wide, words @ ..] if *wide == WIDE => {
            do_word(rt, true, words, given.get(1..).unwrap_or(&[]))
        }
        words => do_word(rt, false, words, given.as_slice()),
    }
}

/// Does what the words say, which are given as bytes too. With `--wide` in front of them a program may be as large as one that a
/// tool writes.
fn do_word(
    rt: &HostRuntime,
    is_wide: bool,
    words: &[&str],
    given: &[Vec<u8>],
) -> Result<(), ToolFault> {
    let limits = limits_of(is_wide);
    match words {
        [word, options @ ..] if *word == "graph" => graph(rt, is_wide, options),
        [word, options @ ..] if *word == "session" => session(rt, is_wide, options),
        [word, options @ ..] if *word == "verdict" => {
            tell_verdict(rt, limits, options, given.get(1..).unwrap_or(&[]))
        }
        [word, options @ ..] if *word == "witness" => witness(rt, is_wide, options),
        [word, options @ ..] if *word == "import" && !is_wide => import_classes(rt, options),
        [word, options @ ..] if *word == "view" && !is_wide => view(rt, options),
        _ => Err(ToolFault::Usage),
    }
}
