//! The cases of a file, run one after another, and what is reported of them.

use crate::files::case::{Case, cases};
use crate::files::fault::CaseFault;
use crate::files::running::{CaseAnswer, run_answer};
use crate::files::section::CasePart;
use crate::files::sections::read_sections;
use script_tests::first_difference;
use std::rt::Files;
use std::{fs, io, str};

/// How the runs of a file ended.
#[derive(Clone, Copy)]
struct RunTally {
    cases: usize,
    runs: usize,
    others: usize,
}

/// Runs the cases of the file `NAME.cases` in the folder that the program runs in, and writes a line for each run that
/// doesn't answer as the file says, and one for the file. The errors are that the file can't be read, or a line not
/// written.
pub fn tell_file<R: Files + Print + AllocGlobal>(rt: &R, name: &str) -> io::Result<()> {
    let path = format!(in rt.alloc(); "{name}.cases")?;
    let text = fs::read(rt, path)?;
    match tell_cases(rt, name, text.as_slice()) {
        Ok(tally) => tell_tally(rt, name, tally),
        Err(CaseFault::Io(fault)) => Err(fault),
        Err(fault) => println!(rt; "{name}.cases: {fault}"),
    }
}

/// Writes how the runs of a file ended.
fn tell_tally<R: Print>(rt: &R, name: &str, tally: RunTally) -> io::Result<()> {
    let RunTally {
        cases,
        runs,
        others,
    } = tally;
    if others == 0 {
        println!(rt; "{name}: {cases} cases, {runs} runs, as written")
    } else {
        println!(rt; "{name}: {cases} cases, {others} of {runs} runs not as written")
    }
}

/// Runs the cases that a file's text has.
fn tell_cases<R: Print + AllocGlobal>(
    rt: &R,
    name: &str,
    text: &[u8],
) -> Result<RunTally, CaseFault> {
    let sections = read_sections(rt.alloc(), text)?;
    let cases = cases(rt.alloc(), sections.as_slice())?;
    let mut tally = RunTally {
        cases: cases.len(),
        runs: 0,
        others: 0,
    };
    for case in cases.as_slice() {
        tell_case(rt, name, case, &mut tally)?;
    }
    Ok(tally)
}

/// Runs each command line of a case.
fn tell_case<R: Print + AllocGlobal>(
    rt: &R,
    name: &str,
    case: &Case<'_>,
    tally: &mut RunTally,
) -> Result<(), CaseFault> {
    if !case.has(CasePart::Words) {
        return Err(CaseFault::Malformed(case.line(), "the case has no words"));
    }
    for section in case.sections() {
        if section.part == CasePart::Words {
            let line = section.head.as_str();
            tally.runs = tally.runs.saturating_add(1);
            if !tell_run(rt, name, case, line)? {
                tally.others = tally.others.saturating_add(1);
            }
        }
    }
    Ok(())
}

/// Runs a command line of a case, and writes what it answers otherwise. Says whether it answers as written.
fn tell_run<R: Print + AllocGlobal>(
    rt: &R,
    name: &str,
    case: &Case<'_>,
    line: &str,
) -> Result<bool, CaseFault> {
    let Some(found) = run_answer(rt.alloc(), case, line)? else {
        let title = case.title();
        println!(rt; "{name}: {title} ({line}): `certify` gives no certificate")?;
        return Ok(false);
    };
    let has_output = tell_text(
        rt,
        name,
        case,
        line,
        CasePart::Output,
        found.output.as_slice(),
    )?;
    let has_errors = tell_text(
        rt,
        name,
        case,
        line,
        CasePart::Errors,
        found.errors.as_slice(),
    )?;
    let has_status = tell_status(rt, name, case, line, &found)?;
    Ok(has_output && has_errors && has_status)
}

/// Writes where what is written differs from the case's sections of this part, if it has any. Says whether they agree.
fn tell_text<R: Print + AllocGlobal>(
    rt: &R,
    name: &str,
    case: &Case<'_>,
    line: &str,
    part: CasePart,
    found: &[u8],
) -> Result<bool, CaseFault> {
    let Some(wanted) = case.text(rt.alloc(), part)? else {
        return if part == CasePart::Output {
            Err(CaseFault::Malformed(case.line(), "the case has no output"))
        } else {
            Ok(true)
        };
    };
    let Some(differing) = first_difference(wanted.as_slice(), found) else {
        return Ok(true);
    };
    let title = case.title();
    let stream = if part == CasePart::Errors {
        "standard error"
    } else {
        "standard output"
    };
    let number = differing.line;
    println!(rt; "{name}: {title} ({line}): line {number} of {stream}")?;
    tell_line(rt, "wanted", differing.wanted)?;
    tell_line(rt, "found ", differing.found)?;
    Ok(false)
}

/// Writes a line that is wanted or found.
fn tell_line<R: Print>(rt: &R, what: &str, line: &[u8]) -> Result<(), CaseFault> {
    let text = str::from_utf8(line).unwrap_or("(no text)");
    println!(rt; "  {what}: {text:?}")?;
    Ok(())
}

/// Writes that the status is another than the case's, if it is. Says whether they agree.
fn tell_status<R: Print + AllocGlobal>(
    rt: &R,
    name: &str,
    case: &Case<'_>,
    line: &str,
    found: &CaseAnswer,
) -> Result<bool, CaseFault> {
    let wanted = case.status()?;
    let status = found.status;
    if wanted == status {
        return Ok(true);
    }
    let title = case.title();
    println!(rt; "{name}: {title} ({line}): ends with {status} and not with {wanted}")?;
    Ok(false)
}
