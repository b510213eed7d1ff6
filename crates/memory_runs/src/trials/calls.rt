//! Calls by their words, and what is written of them.

use crate::trials::answer::TrialAnswer;
use crate::trials::report_buffer::ReportBuffer;
use std::alloc::Global;
use std::rt::Env;
use std::{env, io};

/// Calls by their words.
pub trait CallTable {
    /// The words, each with a blank behind it but the last one.
    const WORDS: &'static str;

    /// Makes what the call of this word is made on, makes the call, and tells what it answers. `None` where no call has
    /// the word, and where there is no memory for what the call is made on.
    fn make(alloc: Global, word: &str, told: &mut ReportBuffer) -> Option<TrialAnswer>;
}

/// Makes the calls of the process's words, or all where there is none, and writes how each was answered and what it told.
pub fn tell_calls<C: CallTable, R: Print + AllocGlobal + Env>(rt: &R) -> io::Result<()> {
    let Ok(words) = env::args(rt) else {
        return tell_unmade(rt);
    };
    let Ok(words) = words.skip(1).collect::<Vec<String>>(rt.alloc()) else {
        return tell_unmade(rt);
    };
    if words.is_empty() {
        return tell_each::<C, R>(rt);
    }
    for word in words.as_slice() {
        tell_call::<C, R>(rt, word.as_str())?;
    }
    Ok(())
}

/// Makes all calls.
fn tell_each<C: CallTable, R: Print + AllocGlobal>(rt: &R) -> io::Result<()> {
    for word in C::WORDS.split(' ') {
        tell_call::<C, R>(rt, word)?;
    }
    Ok(())
}

fn tell_call<C: CallTable, R: Print + AllocGlobal>(rt: &R, word: &str) -> io::Result<()> {
    let Ok(mut told) = ReportBuffer::new(rt.alloc()) else {
        return tell_unmade(rt);
    };
    match C::make(rt.alloc(), word, &mut told) {
        Some(answer) => {
            print!(rt; "{word}: ")?;
            tell_answer(rt, answer)?;
            let text = told.as_str();
            println!(rt; "{text}")
        }
        None => tell_unmade(rt),
    }
}

/// Writes that a call wasn't made.
fn tell_unmade(rt: &impl Print) -> io::Result<()> {
    println!(rt; "unmade")
}

/// Writes how a call was answered.
fn tell_answer(rt: &impl Print, answer: TrialAnswer) -> io::Result<()> {
    match answer {
        TrialAnswer::Ample => println!(rt; "ample"),
        TrialAnswer::Ended(status) => println!(rt; "status {status}"),
        TrialAnswer::Memory => println!(rt; "memory"),
        TrialAnswer::Again { is_as_before } => println!(rt;
            "memory, as before {is_as_before}, then ample"
        ),
        TrialAnswer::Stopped { stays } => println!(rt; "fault 65, then fault 66 {stays}"),
        TrialAnswer::Untold => println!(rt; "untold"),
        TrialAnswer::Other => println!(rt; "another answer"),
    }
}
