//! What is reported of a fault.

use crate::placed::PlacedText;
use crate::reports::active::active;
use crate::reports::events::{EventLine, event_line};
use command_lines::Output;
use diagnostics::{Flaw, Severity, TextKind};
use std::alloc::{AllocError, Global};
use std::str;
use trace_entries::{Entry, Fault};

/// So many lines of what was begun are shown from the front, and as many from the back.
const SHOWN: usize = 5;

/// The most bytes of a line that are shown.
const MOST_OF_LINE: usize = 160;

/// What is reported of a fault that ended a run, behind what the fault means: the event at which it came, with its line; what
/// that event had begun; and what to do. `begun` is what was written down since the last whole event, and `last` is what was
/// for that one; the program may have had a settling certificate. Where the input isn't known no line is reported.
///
/// An event's first entry is written as it is taken. So a fault came in the event that `begun` begins with, or, where it is
/// empty, as the one behind the last whole event was to be taken (docs/machine.md, "Faults").
pub fn fault_report(
    alloc: Global,
    input: Option<&[u8]>,
    begun: &[Entry],
    last: &[Entry],
    fault: Fault,
    is_settling: bool,
) -> Result<String, AllocError> {
    let mut text = String::new(alloc);
    let script = match input {
        Some(input) => Some(PlacedText::of(alloc, input, TextKind::Script)?),
        None => None,
    };
    let number = fault.number();
    match event_of(begun) {
        Some(event) => {
            let sentence = format!(in alloc; "fault {number} in event {event}")?;
            push_event(&mut text, alloc, script, event, sentence)?;
            push_active(&mut text, alloc, begun)?;
        }
        None => {
            let event = event_of(last).unwrap_or(0).saturating_add(1);
            let sentence = format!(in alloc; "fault {number} as event {event} was to be taken")?;
            push_event(&mut text, alloc, script, event, sentence)?;
        }
    }
    if let Some(advice) = advice(fault, is_settling) {
        writeln!(&mut text, "help: {advice}")?;
    }
    Ok(text)
}

/// The number in the script, counted from 1, of the event whose entries these are; `None` where there are none.
fn event_of(entries: &[Entry]) -> Option<u64> {
    match entries.first()? {
        Entry::Accepted(number) | Entry::Refused(number, _) => Some(*number),
        Entry::At(_, _) => None,
    }
}

/// Adds a sentence on an event, with the event's line, where it is known.
fn push_event(
    text: &mut String,
    alloc: Global,
    script: Option<PlacedText<'_>>,
    event: u64,
    sentence: String,
) -> Result<(), AllocError> {
    if let Some(script) = script
        && let Some(EventLine { line, at }) = event_line(alloc, script.source(), event)?
    {
        let indent = line.len().saturating_sub(line.trim_ascii_start().len());
        let flaw = Flaw {
            at: at.saturating_add(indent),
            sentence,
            advice: None,
        };
        return script.push(text, Severity::Error, &flaw);
    }
    text.push_str(sentence.as_str())?;
    text.push('\n')
}

/// Adds the lines of what was begun, of which the middle is left out where there are many.
fn push_active(text: &mut String, alloc: Global, trace: &[Entry]) -> Result<(), AllocError> {
    let active = active(alloc, trace)?;
    let active = active.as_slice();
    if active.is_empty() {
        return Ok(());
    }
    text.push_str("begun by then, the outermost first (the inner ones may have ended):\n")?;
    if active.len() <= 2 * SHOWN {
        return push_lines(text, alloc, trace, active);
    }
    push_lines(text, alloc, trace, &active[..SHOWN])?;
    text.push_str("  ..\n")?;
    push_lines(text, alloc, trace, &active[active.len() - SHOWN..])
}

/// Adds the lines of the entries at these places.
fn push_lines(
    text: &mut String,
    alloc: Global,
    trace: &[Entry],
    places: &[usize],
) -> Result<(), AllocError> {
    let mut line = Vec::new(alloc);
    for place in places {
        line.clear();
        put_line(&mut line, alloc, trace, *place)?;
        let shown = &line.as_slice()[..line.len().min(MOST_OF_LINE)];
        text.push_str("  ")?;
        text.push_str(str::from_utf8(shown).unwrap_or(".."))?;
        text.push('\n')?;
    }
    Ok(())
}

/// Puts the line of the entry at this place, without its newline, behind these bytes.
fn put_line(
    line: &mut Vec<u8>,
    alloc: Global,
    trace: &[Entry],
    place: usize,
) -> Result<(), AllocError> {
    let entry = trace.get(place..place.saturating_add(1)).unwrap_or(&[]);
    let mut output = Output::new(alloc, line);
    output.entries(entry);
    let ended = output.finish(0);
    drop(output);
    let _newline = line.pop();
    match ended {
        Ok(_) => Ok(()),
        Err(_) => Err(AllocError),
    }
}

/// What to do about a fault of a run, with a settling certificate or without one.
fn advice(fault: Fault, is_settling: bool) -> Option<&'static str> {
    match fault {
        Fault::TooDeep if is_settling => Some(
            "at most 256 activations nest: with a settling certificate that is enough where its bound, and its step for each object, are no more; a `queued` wire on the circle, or fewer objects, need less",
        ),
        Fault::TooDeep => Some(
            "`certify` finds such chains without a run, and names one that has no end; a `queued` wire in the place of a direct one breaks it; `run --unchecked N` lets N activations nest, at most 256",
        ),
        Fault::BindingLoop => Some(
            "`certify` finds such chains without a run, and names the properties; no two properties may follow each other",
        ),
        Fault::InUse => Some(
            "`certify` finds such deletions without a run; `later` in the place of `delete` puts one off until the body has ended",
        ),
        Fault::Steps => Some("`--steps M` gives the run M steps; without it a run has 1000000"),
        Fault::Memory => Some("a smaller script, or objects that are deleted, need less memory"),
        Fault::BadType | Fault::Stopped => None,
    }
}
