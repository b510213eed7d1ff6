//! Reads a script, line by line.

ghost use Rattle.std.specs.Prelude.{◌≡◌, ◌++◌, [], ◌∷◌, ℕ, List, OnOk};
ghost use Rattle.script_lang.specs.Reads.{ReadsScript, HasOneContent, HasOneScript, HasOneAnswer};
ghost use Rattle.script_lang.specs.code.Lines.{ReadsLine};

use crate::event::Event;
use crate::fault::{LineFault, ScriptFault};
use crate::known::KnownSignatures;
use crate::limits::event_has_few_types;
use crate::syntax::event;
use sqlite_items::Items;
use std::alloc::{AllocError, Global};
use texts::{Lexer, MOST_BYTES, Token, split_line};
use token_reading::{Cursor, Trail, has_plain_reference};

/// A list of events has room at first for so many, and for so many more than are expected.
const FEW: usize = 4;

/// This part of the events that are expected is made room for besides.
const SPARE: usize = 16;

/// Reads the events of a script, in their order.
///
/// A line ends at a newline or at the end of the text. It is one event, or it is empty: blanks, or a comment from `//`
/// on. Time and memory are linear in the text.
///
/// - `TooLarge`: the script has more than 1,048,576 bytes.
/// - `BadLine`: the number of the first line that is neither empty nor an event. Empty lines are counted too.
/// - `Memory`: a growth of memory was refused.
pub fn read_script(alloc: Global, bytes: &[u8]) -> Result<Items<Event>, ScriptFault>
    ensures { ReadsScript bytes.now result }
{
    if bytes.len() > MOST_BYTES {
        return Err(ScriptFault::TooLarge);
    }
    let mut lexer = Lexer::new(alloc, bytes.len())?;
    let mut known = KnownSignatures::new();
    let mut events = Vec::new(alloc);
    let mut rest = bytes;
    let mut number = 0;
    while let Some((line, after)) = split_line(rest) {
        number += 1;
        match read_line(alloc, &mut lexer, line) {
            Ok(Some(event)) => add(&mut events, &mut known, event, bytes.len(), after.len())?,
            Ok(None) => {}
            Err(LineFault::NoEvent) => return Err(ScriptFault::BadLine(number)),
            Err(LineFault::Memory) => return Err(ScriptFault::Memory),
        }
        rest = after;
    }
    Ok(Items::from_vec(events))
}

/// Adds an event to the list, with the signatures that are known, of a text of so many bytes of which so many are left.
#[inline(always)]
fn add(
    events: &mut Vec<Event>,
    known: &mut KnownSignatures,
    event: Event,
    total: usize,
    left: usize,
) -> Result<(), AllocError>
    ensures { OnOk result (events.new.items ≡ events.old.items ++ event ∷ []) }
{
    if events.len() == events.capacity() {
        events.reserve_exact(expected(events.len(), total, left))?;
    }
    if makes_connection(&event) {
        return add_sharing(events, known, event);
    }
    events.push(event)?;
    Ok(())
}

/// Adds an event to the list, with the signatures that are known. It stands apart, so that other events aren't moved once more.
#[inline(never)]
fn add_sharing(
    events: &mut Vec<Event>,
    known: &mut KnownSignatures,
    event: Event,
) -> Result<(), AllocError>
    ensures { OnOk result (events.new.items ≡ events.old.items ++ event ∷ []) }
{
    let event = known.share_in(event)?;
    events.push(event)?;
    Ok(())
}

/// Whether it is `connect`.
fn makes_connection(event: &Event) -> bool {
    match event {
        Event::Connect(_, _) => true,
        _ => false,
    }
}

/// How many more events to make room for, if so many were read, and so many of the text's bytes are left: as many as are
/// expected if its lines go on as they began, but at most twice as many in all.
#[cold]
#[inline(never)]
fn expected(count: usize, total: usize, left: usize) -> usize {
    let read = total.saturating_sub(left);
    let more = left.saturating_mul(count).checked_div(read).unwrap_or(0);
    let spared = more.saturating_add(more / SPARE);
    spared.min(count).saturating_add(FEW)
}

/// A line is empty or one event, and a script has one list of events.
pub fn one_reading()
    ensures line { (line : List ℕ) → HasOneContent line }
    ensures script { (text : List ℕ) → HasOneScript text }
{}

/// Only one answer fits a text, where memory isn't refused.
pub fn one_answer()
    ensures { (text : List ℕ) → HasOneAnswer text }
{}

/// Reads a line: its event, or `None` where it has no tokens.
fn read_line(alloc: Global, lexer: &mut Lexer, line: &[u8]) -> Result<Option<Event>, LineFault>
    ensures { ReadsLine line.now result }
{
    lexer.cut(line)?;
    let mut cursor = Cursor::new(alloc, lexer.tokens());
    if cursor.is_empty() {
        return Ok(None);
    }
    if has_plain_reference(lexer.tokens()) {
        return Err(LineFault::NoEvent);
    }
    let event = event(&mut cursor)?;
    if !cursor.is_empty() {
        return Err(LineFault::NoEvent);
    }
    if event_has_few_types(&event) {
        Ok(Some(event))
    } else {
        Err(LineFault::NoEvent)
    }
}

/// The way of the reader of events through the tokens of a line: what was looked for where it came farthest.
pub fn event_trail(alloc: Global, tokens: &[Token]) -> Option<Trail> {
    let mut cursor = Cursor::recording(alloc, tokens);
    if event(&mut cursor).is_ok() {
        cursor.want_end();
    }
    cursor.into_trail()
}
