//! What is reported of refused events.

ghost use Rattle.std.specs.Prelude.{◌↔◌, IsTrue};
ghost use Rattle.explained_commands.specs.Refused.{HasRefused, IsRefused};

use crate::placed::{PlacedText, some_text};
use crate::reports::blame::{Blame, blame_of, needs_program};
use crate::reports::known::KnownNames;
use diagnostics::{
    Printed, Severity, TextKind, TextLine, has_tokens, meaning, number_behind, placed_or_none,
};
use program_flaws::declarations_of;
use std::alloc::{AllocError, Global};
use syntax_trees::Program;
use texts::split_line;
use trace_entries::Entry;

/// So many refused events are reported where not all are asked for.
pub const FIRST_REFUSALS: usize = 5;

/// So many get the part that is wrong, and a guess at what was meant.
const MOST_GUESSED: usize = 20;

/// What comes before a number at the end of an event that is meant to be refused.
const EXPECTED: &str = "// refused";

/// An event that was refused, and why.
#[derive(Clone, Copy, Debug, PartialEq, Eq)]
struct RefusedEvent {
    /// Its number in the script, counted from 1.
    event: u64,
    /// The reason's number.
    reason: u8,
}

/// What is reported of the events that were refused in a run with this trace: of each of the first so many its place, what its
/// reason means, the part that is wrong and what may be meant, and how many more there are. Where not all are asked for those
/// are left out that a comment expects. Where the input isn't known neither place nor part is reported. `None` where there is
/// nothing to report.
pub fn refusal_report(
    alloc: Global,
    input: Option<&[u8]>,
    trace: &[Entry],
    most: usize,
) -> Result<Option<String>, AllocError> {
    let refused = refused_events(alloc, trace)?;
    if refused.is_empty() {
        return Ok(None);
    }
    let mut text = String::new(alloc);
    let untold = match input {
        Some(input) => {
            let script = RefusedScript::of(alloc, input, refused.as_slice(), most)?;
            script.push_refusals(&mut text, refused.as_slice(), most)?
        }
        None => push_unplaced(&mut text, refused.as_slice(), most)?,
    };
    match untold {
        0 => {}
        1 => text.push_str("and 1 more event was refused: `GAMMONFIG_EXPLAIN=1` tells all\n")?,
        more => writeln!(
            &mut text,
            "and {more} more events were refused: `GAMMONFIG_EXPLAIN=1` tells all"
        )?,
    }
    Ok(some_text(text))
}

/// The refused events of a trace, in their order.
fn refused_events(alloc: Global, trace: &[Entry]) -> Result<Vec<RefusedEvent>, AllocError> {
    let mut refused = Vec::new(alloc);
    for entry in trace {
        if let Entry::Refused(event, reason) = entry {
            refused.push(RefusedEvent {
                event: *event,
                reason: *reason,
            })?;
        }
    }
    Ok(refused)
}

/// Adds what is reported of the first of these events where the script isn't known, and answers how many are left.
fn push_unplaced(
    text: &mut String,
    refused: &[RefusedEvent],
    most: usize,
) -> Result<usize, AllocError> {
    for refused in refused.iter().take(most) {
        let RefusedEvent { event, reason } = *refused;
        let about = meaning(reason).unwrap_or("");
        writeln!(text, "event {event} refused {reason}: {about}")?;
    }
    Ok(refused.len().saturating_sub(most))
}

/// The script of an input, whose events were refused, and the input's program.
#[derive(Drop)]
struct RefusedScript<'a> {
    alloc: Global,
    text: PlacedText<'a>,
    /// How many lines of the input stand in front of it.
    lines_before: usize,
    program: Option<Program>,
}

/// An event that is to be reported.
#[derive(Clone, Copy)]
struct ReportedEvent<'a> {
    refused: RefusedEvent,
    line: TextLine<'a>,
    /// Whether the part that is wrong is looked for.
    is_guessed: bool,
}

impl<'a> RefusedScript<'a> {
    /// The script of this input. The program is read only where one of these events is reported, and has a reason of which it can
    /// say more.
    fn of(
        alloc: Global,
        input: &'a [u8],
        refused: &[RefusedEvent],
        most: usize,
    ) -> Result<RefusedScript<'a>, AllocError> {
        let is_needed = most > 0 && refused.iter().any(|refused| needs_program(refused.reason));
        let program = if is_needed {
            let text = PlacedText::of(alloc, input, TextKind::Program)?;
            declarations_of(alloc, text.source())?
        } else {
            None
        };
        let text = PlacedText::of(alloc, input, TextKind::Script)?;
        Ok(RefusedScript {
            alloc,
            text,
            lines_before: text.lines_before(),
            program,
        })
    }

    /// Adds what is reported of the first so many of these events, and answers how many are left, without those that a comment
    /// expects. Behind the last one that is reported, lines are only looked at for comments.
    fn push_refusals(
        &self,
        text: &mut String,
        refused: &[RefusedEvent],
        most: usize,
    ) -> Result<usize, AllocError> {
        let mut known = KnownNames::new(self.alloc)?;
        let mut left = self.text.source();
        let mut passed = 0usize;
        let mut event = 0u64;
        let mut told = 0usize;
        let mut untold = 0usize;
        let mut rest_refused = refused;
        while let Some((line, rest)) = split_line(left)
            && let Some((found, later)) = rest_refused.split_first()
        {
            let after = passed;
            passed = passed.saturating_add(1);
            left = rest;
            if !has_tokens(self.alloc, line)? {
                continue;
            }
            event = event.saturating_add(1);
            if found.event != event {
                if told < most {
                    known.take(line)?;
                }
                continue;
            }
            rest_refused = later;
            if most <= FIRST_REFUSALS && is_expected(line, found.reason) {
                continue;
            }
            if told == most {
                untold = untold.saturating_add(1);
                continue;
            }
            told = told.saturating_add(1);
            let reported = ReportedEvent {
                refused: *found,
                line: self.text.line(self.lines_before, after, line),
                is_guessed: told <= MOST_GUESSED,
            };
            self.push_refusal(text, reported, &known)?;
        }
        Ok(untold.saturating_add(rest_refused.len()))
    }

    /// Adds what is reported of an event, before which these names were made.
    fn push_refusal(
        &self,
        text: &mut String,
        reported: ReportedEvent<'_>,
        known: &KnownNames<'_>,
    ) -> Result<(), AllocError> {
        let ReportedEvent {
            refused: RefusedEvent { event, reason },
            line,
            is_guessed,
        } = reported;
        let tokens = placed_or_none(self.alloc, line.bytes)?;
        let tokens = tokens.as_slice();
        let Blame { token, advice } = if is_guessed {
            let program = self.program.as_ref();
            blame_of(self.alloc, reason, line.bytes, tokens, known, program)?
        } else {
            Blame::whole()
        };
        let about = meaning(reason).unwrap_or("");
        let mut sentence = format!(in self.alloc; "event {event} refused {reason}: {about}")?;
        let mut at = 0usize;
        if let Some(placed) = tokens.get(token) {
            at = placed.at;
            if token > 0 {
                let part = Printed(line.bytes.get(placed.at..placed.end).unwrap_or(&[]));
                write!(&mut sentence, ": `{part}`")?;
            }
        }
        let advice = advice.as_ref().map(|advice| advice.as_str());
        line.push(text, Severity::Warning, at, sentence.as_str(), advice)
    }
}

/// Whether a comment at the end of an event's line expects that it is refused with this number.
fn is_expected(line: &[u8], reason: u8) -> bool {
    match number_behind(line, EXPECTED) {
        Some((_, number)) => number == reason,
        None => false,
    }
}

/// Whether an event was refused in a run with this trace, and no comment in its line expects that. Where there is no memory to look,
/// none does.
pub fn has_unexpected(alloc: Global, input: &[u8], trace: &[Entry]) -> bool
    ensures { IsTrue result → HasRefused trace.now }
{
    has_refused(trace) && unexpected_in(alloc, input, trace).unwrap_or(usize::MAX) > 0
}

/// Whether the trace has a refused event.
pub fn has_refused(trace: &[Entry]) -> bool
    ensures { IsTrue result ↔ HasRefused trace.now }
{
    trace.iter().any(|entry| is_refused(entry))
}

/// Whether the entry is of a refused event.
fn is_refused(entry: &Entry) -> bool
    ensures { IsTrue result ↔ IsRefused entry.now }
{
    match entry {
        Entry::Refused(_, _) => true,
        Entry::Accepted(_) | Entry::At(_, _) => false,
    }
}

/// How many refused events of the trace no comment expects.
fn unexpected_in(alloc: Global, input: &[u8], trace: &[Entry]) -> Result<usize, AllocError> {
    let refused = refused_events(alloc, trace)?;
    let script = RefusedScript::of(alloc, input, refused.as_slice(), 0)?;
    script.push_refusals(&mut String::new(alloc), refused.as_slice(), 0)
}
