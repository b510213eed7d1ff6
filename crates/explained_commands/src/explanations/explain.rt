//! Explanations: what an answer of the program means, and where in the input its reason lies.

use crate::placed::PlacedText;
use class_lang::Limits;
use diagnostics::{Flaw, Severity, TextKind, meaning};
use effect_scan::{Member, Node};
use findings::{FileNames, Finding, FindingSeverity, Rule, Verdict, push_finding};
use meta_model::Meta;
use program_commands::{Outcome, Refusal, SettlingOutcome, Why};
use program_flaws::{
    FurtherFlaw, ProgramSource, declaration_flaw, declarations_of, further_declaration_flaws,
    native_flaw, unsettled_text,
};
use rank_check::{Denied, No};
use script_lang::ScriptFault;
use std::alloc::{AllocError, Global};
use text_flaws::{
    certificate_flaws, further_program_flaws, further_script_flaws, program_flaw, script_flaw,
    script_size_flaw, settling_flaws,
};
use trace_entries::Fault;
use verdicts::found_errors;

/// What places call the input.
const INPUT: &[u8] = b"<stdin>";

/// So many errors are told.
const MOST_TOLD: usize = 20;

/// What was asked for, of which the end is explained.
#[derive(Clone, Copy)]
pub struct Asked<'i> {
    pub alloc: Global,
    /// How large a program may be.
    pub limits: Limits,
    /// Whether a certificate was to be a settling one.
    pub is_settling: bool,
    /// The input; where it isn't known no place is reported.
    pub input: Option<&'i [u8]>,
}

/// Adds what a command that runs nothing comes to, or why a program doesn't run, for a person: what it means, in one sentence; and
/// where the input is at fault, what is wrong there, its line and column in the input and in its text, that line with a caret
/// below the place, and what to write instead, where that is known. Nothing is added where the command did what it was asked, or
/// memory was wanting.
pub fn push_outcome(
    text: &mut String,
    asked: Asked<'_>,
    outcome: &Outcome,
) -> Result<(), AllocError> {
    match outcome {
        Outcome::Refused(refusal) => push_refusal(text, asked, refusal),
        Outcome::Uncertified(meta, why) => push_missing(text, asked, meta, meaning_of_reason(why)),
        Outcome::Settling(SettlingOutcome::Uncertified(meta, Why::Cycle(nodes))) => {
            push_unsettled(text, asked, meta, nodes.as_slice())
        }
        Outcome::Settling(SettlingOutcome::Uncertified(meta, why)) => {
            push_missing(text, asked, meta, meaning_of_unsettled(why))
        }
        _ => Ok(()),
    }
}

/// Adds what a fault means that stopped a run.
pub fn push_fault(text: &mut String, fault: Fault) -> Result<(), AllocError> {
    let number = fault.number();
    let about = meaning(number).unwrap_or("");
    writeln!(text, "fault {number}: {about}")
}

/// Adds what the no to a settling certificate means; running out of memory says nothing of it.
fn push_invalid(text: &mut String, no: &No) -> Result<(), AllocError> {
    let Some(number) = no.number() else {
        return Ok(());
    };
    let about = match no {
        No::Extra => {
            "a line of the certificate is for no node, or a second one for it, names a class that isn't there, or a set has what is no node or another one's"
        }
        No::Edge => {
            "along an edge a rank doesn't fall, a step rises, or within a set a value isn't handed on"
        }
        No::Bound => {
            "a rank isn't below the bound, the bound is over 256, a step is above the certificate's, or a set has no such round"
        }
        _ => meaning(number).unwrap_or(""),
    };
    writeln!(text, "no {number}: {about}")
}

/// Adds where the input is at fault, and what the refusal means.
fn push_refusal(text: &mut String, asked: Asked<'_>, refusal: &Refusal) -> Result<(), AllocError> {
    let Some(number) = refusal.number() else {
        return Ok(());
    };
    if let Refusal::Unsettled(no) = refusal {
        return push_invalid(text, no);
    }
    let about = meaning(number).unwrap_or("");
    if let Refusal::Check(denied) = refusal {
        if let Some(input) = asked.input {
            push_errors(text, asked.alloc, input, denied.meta(), Some(denied))?;
        }
        return writeln!(text, "no {number}: {about}");
    }
    if let Some(input) = asked.input {
        push_place_of(text, asked, input, refusal)?;
    }
    writeln!(text, "refused {number}: {about}")
}

/// Adds where the input is at fault that is refused, if that is at one place.
fn push_place_of(
    text: &mut String,
    asked: Asked<'_>,
    input: &[u8],
    refusal: &Refusal,
) -> Result<(), AllocError> {
    let placed = PlacedText::of(asked.alloc, input, text_at_fault(refusal))?;
    for flaw in flaws_of(asked, placed.source(), refusal)? {
        placed.push(text, Severity::Error, &flaw)?;
    }
    Ok(())
}

/// What is wrong with that text, the first first.
fn flaws_of(asked: Asked<'_>, source: &[u8], refusal: &Refusal) -> Result<Vec<Flaw>, AllocError> {
    let alloc = asked.alloc;
    match refusal {
        Refusal::Certificate(_) if asked.is_settling => settling_flaws(alloc, source, MOST_TOLD),
        Refusal::Certificate(_) => certificate_flaws(alloc, source, MOST_TOLD),
        _ => {
            let mut flaws = Vec::new(alloc);
            if let Some(first) = first_flaw(asked, source, refusal)? {
                flaws.push(first)?;
                flaws.append(&mut further_flaws(alloc, source, refusal)?)?;
            }
            Ok(flaws)
        }
    }
}

/// What else is wrong with a text that is no certificate.
fn further_flaws(alloc: Global, source: &[u8], refusal: &Refusal) -> Result<Vec<Flaw>, AllocError> {
    let number = refusal.number().unwrap_or(0);
    let most = MOST_TOLD.saturating_sub(1);
    match refusal {
        Refusal::Text(_) => further_program_flaws(alloc, source, number, most),
        Refusal::Loading(_) => {
            let mut flaws = Vec::new(alloc);
            for further in further_declaration_flaws(alloc, source, most)? {
                let FurtherFlaw { number: _, flaw } = further;
                flaws.push(flaw)?;
            }
            Ok(flaws)
        }
        Refusal::Script(ScriptFault::BadLine(line)) => {
            further_script_flaws(alloc, source, *line, most)
        }
        _ => Ok(Vec::new(alloc)),
    }
}

/// The text in which the reason of a refusal lies.
fn text_at_fault(refusal: &Refusal) -> TextKind {
    match refusal {
        Refusal::Text(_) | Refusal::Loading(_) | Refusal::Natives(_) => TextKind::Program,
        Refusal::Certificate(_) | Refusal::Check(_) | Refusal::Unsettled(_) => {
            TextKind::Certificate
        }
        Refusal::Script(_) => TextKind::Script,
    }
}

/// What is wrong first with a text that is no certificate.
fn first_flaw(
    asked: Asked<'_>,
    source: &[u8],
    refusal: &Refusal,
) -> Result<Option<Flaw>, AllocError> {
    let Some(number) = refusal.number() else {
        return Ok(None);
    };
    let alloc = asked.alloc;
    match refusal {
        Refusal::Text(_) => program_flaw(alloc, asked.limits, source, number),
        Refusal::Loading(unloaded) => match unloaded.offence() {
            Some(offence) => declaration_flaw(alloc, source, offence),
            None => Ok(None),
        },
        Refusal::Natives(misfit) => native_flaw(alloc, source, *misfit),
        Refusal::Script(ScriptFault::BadLine(line)) => script_flaw(alloc, source, *line),
        Refusal::Script(_) => script_size_flaw(alloc, source),
        Refusal::Certificate(_) | Refusal::Check(_) | Refusal::Unsettled(_) => Ok(None),
    }
}

/// Adds why a program has no certificate, and what leads to that.
fn push_missing(
    text: &mut String,
    asked: Asked<'_>,
    meta: &Meta,
    about: Option<&str>,
) -> Result<(), AllocError> {
    let Some(about) = about else {
        return Ok(());
    };
    if let Some(input) = asked.input {
        push_errors(text, asked.alloc, input, meta, None)?;
    }
    writeln!(text, "no certificate: {about}")
}

/// Adds why a program has no settling certificate that has this circle, and what stands against it that the circle comes to rest.
fn push_unsettled(
    text: &mut String,
    asked: Asked<'_>,
    meta: &Meta,
    nodes: &[Node],
) -> Result<(), AllocError> {
    let mut about = String::from_str(asked.alloc, "there is a circle that doesn't settle")?;
    if let Some(input) = asked.input
        && let Some(against) = obstacle_of(asked.alloc, input, meta, nodes)?
    {
        write!(about, ": {against}, or make a wire `queued`")?;
    }
    push_missing(text, asked, meta, Some(about.as_str()))
}

/// What stands against that.
fn obstacle_of(
    alloc: Global,
    input: &[u8],
    meta: &Meta,
    nodes: &[Node],
) -> Result<Option<String>, AllocError> {
    let text = PlacedText::of(alloc, input, TextKind::Program)?;
    let Some(program) = declarations_of(alloc, text.source())? else {
        return Ok(None);
    };
    let source = ProgramSource {
        alloc,
        program: &program,
        meta,
    };
    unsettled_text(source, nodes)
}

/// Adds the errors that `verdict` finds in the input's program, which loads as this, and in the certificate that was denied.
fn push_errors(
    text: &mut String,
    alloc: Global,
    input: &[u8],
    meta: &Meta,
    denied: Option<&Denied>,
) -> Result<(), AllocError> {
    let program = PlacedText::of(alloc, input, TextKind::Program)?;
    let certificate = PlacedText::of(alloc, input, TextKind::Certificate)?;
    let judged = match denied {
        Some(denied) => Some((certificate.source(), denied)),
        None => None,
    };
    let found = found_errors(alloc, program.source(), meta, judged)?;
    push_found(text, alloc, &found, certificate.lines_before())
}

/// Adds what isn't typed in the input's program, which loads as this: where a run has a value of a wrong type it comes from there.
pub fn push_untyped(
    text: &mut String,
    alloc: Global,
    input: &[u8],
    meta: &Meta,
) -> Result<(), AllocError> {
    let program = PlacedText::of(alloc, input, TextKind::Program)?;
    let mut found = found_errors(alloc, program.source(), meta, None)?;
    found
        .errors
        .retain(|finding: &Finding| is_of_types(finding.rule));
    found.more_errors = 0;
    found.is_least = false;
    text.push_str("what isn't typed in the program, as `certify` says without a run:\n")?;
    push_found(text, alloc, &found, 0)
}

/// Whether the rule is about the types of values.
fn is_of_types(rule: Rule) -> bool {
    matches!(rule, Rule::WireTypes | Rule::IllTyped)
}

/// Adds the first errors, where so many lines stand in front of the certificate, and how many more there are.
fn push_found(
    text: &mut String,
    alloc: Global,
    found: &Verdict,
    certificate_lines: usize,
) -> Result<(), AllocError> {
    let names = FileNames {
        program: INPUT,
        certificate: INPUT,
        certificate_lines,
        places: None,
    };
    for finding in found.errors.iter().take(MOST_TOLD) {
        push_finding(text, alloc, FindingSeverity::Error, finding, names)?;
    }
    let least = if found.is_least { "at least " } else { "" };
    match found.error_count().saturating_sub(MOST_TOLD) {
        0 => Ok(()),
        more => writeln!(text, "and {least}{more} more errors, which `verdict` tells"),
    }
}

/// What a reason says, in one sentence; running out of memory says nothing of the program.
fn meaning_of_reason(why: &Why) -> Option<&'static str> {
    match why {
        Why::Wire(_) => Some(
            "the method of a wire takes other types than the first ones of its signal",
        ),
        Why::BodyType(_) => Some(
            "a literal, a body or a binding isn't typed: a value is given where another type is asked",
        ),
        Why::Cycle(nodes) if are_properties(nodes.as_slice()) => Some(
            "there is a cycle: each of these properties follows the next one, and so without end",
        ),
        Why::Cycle(_) => Some(
            "there is a cycle: each of these members can call the next one at once, and so one another without end",
        ),
        Why::DestroyPath(_) => Some(
            "a slot can lead at once to the deletion of an object of its own class, while it runs",
        ),
        Why::TooHigh(_) => Some("a chain of direct calls can be longer than 256"),
        Why::Memory => None,
    }
}

/// The same of a reason why no settling certificate was made.
fn meaning_of_unsettled(why: &Why) -> Option<&'static str> {
    match why {
        Why::TooHigh(nodes) if nodes.is_empty() => Some(
            "along circles and behind them ranks or steps grow too great",
        ),
        _ => meaning_of_reason(why),
    }
}

/// Whether all of these are properties.
fn are_properties(nodes: &[Node]) -> bool {
    nodes
        .iter()
        .all(|node: &Node| matches!(node.member, Member::Property(_)))
}
