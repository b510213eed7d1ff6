//! The runs of a case.

use crate::files::answering::answered;
use crate::files::case::Case;
use crate::files::fault::CaseFault;
use crate::files::input::{input_of, wants_certificate};
use crate::files::section::CasePart;
use std::alloc::{AllocError, Global};

/// What a command line answers.
#[derive(Drop)]
pub struct CaseAnswer {
    /// What it writes on standard output.
    pub output: Vec<u8>,
    /// What it writes on standard error.
    pub errors: Vec<u8>,
    /// Its exit status.
    pub status: u8,
}

/// What a case's command line answers; `None` where it needs a certificate, the case has none, and `certify` gives none for
/// its program, or for words with `--settling` `certify --settling`.
pub fn run_answer(
    alloc: Global,
    case: &Case<'_>,
    line: &str,
) -> Result<Option<CaseAnswer>, CaseFault> {
    let words = words_of(alloc, line)?;
    if !wants_certificate(case, words.as_slice()) {
        let input = input_of(alloc, case, words.as_slice(), None)?;
        let answer = answer_on(alloc, case, words.as_slice(), input.as_slice())?;
        return Ok(Some(answer));
    }
    let program = input_of(alloc, case, &["certify"], None)?;
    let certifies: &[&str] = if words.contains(&"--settling") {
        &["certify", "--settling"]
    } else {
        &["certify"]
    };
    let made = answer_on(alloc, case, certifies, program.as_slice())?;
    if made.status != 0 {
        return Ok(None);
    }
    let certificate = Some(made.output.as_slice());
    let input = input_of(alloc, case, words.as_slice(), certificate)?;
    let answer = answer_on(alloc, case, words.as_slice(), input.as_slice())?;
    Ok(Some(answer))
}

/// What the words answer on an input.
fn answer_on(
    alloc: Global,
    case: &Case<'_>,
    words: &[&str],
    input: &[u8],
) -> Result<CaseAnswer, CaseFault> {
    let mut output = Vec::new(alloc);
    let mut errors = Vec::new(alloc);
    let tells_refusals = case.has(CasePart::Explained);
    let status = answered(
        alloc,
        words,
        input,
        tells_refusals,
        &mut output,
        &mut errors,
    )?;
    Ok(CaseAnswer {
        output,
        errors,
        status,
    })
}

/// The words of a command line, which single blanks part; none where it is empty.
fn words_of(alloc: Global, line: &str) -> Result<Vec<&str>, AllocError> {
    let mut words = Vec::new(alloc);
    if !line.is_empty() {
        for word in line.split(' ') {
            words.push(word)?;
        }
    }
    Ok(words)
}
