//! The lines of a trace.

ghost use Rattle.std.specs.Prelude.{◌≡◌, ℕ, ◌↔◌, Some};
ghost use Rattle.traces.specs.Events.{IsEventsLine, event_of};
ghost use Rattle.traces.specs.Lines.{TellsLine, TellsEnd, TellsEntry, TellsPlain, TellsReason, TellsNumber};

use crate::reading::words::cut_word;
use texts::number;

/// The largest number of an event, and the greatest depth, that a trace can have.
const LARGEST: u64 = u64::MAX;

/// The largest number of a reason or of a fault.
const LARGEST_REASON: u64 = 255;

/// A line of a trace, or the fault that ends one.
#[derive(Clone, Copy, Debug, PartialEq, Eq)]
pub enum TraceLine {
    /// `event n`
    Accepted(u64),
    /// `event n refused k`
    Refused(u64, u8),
    /// `d`, and what happens at this depth.
    At(u64, LineKind),
    /// `fault k`
    Fault(u8),
}

/// What happens at a depth.
#[derive(Clone, Copy, Debug, PartialEq, Eq)]
pub enum LineKind {
    /// `emit o.s(args)`
    Emit,
    /// `call o.m(args)`
    Call,
    /// `native` and its actions.
    Native,
    /// `post L o.m(args)` or `post L ~o`
    Post,
    /// `dead o`
    Dead,
    /// `set o.p v`
    Set,
    /// `bind o.p v`
    Bind,
    /// `follow o.p v`
    Follow,
    /// `connect a S b M kind`
    Connect,
    /// `disconnect a S b M`
    Disconnect,
    /// `refused k`, of a statement.
    Refused(u8),
    /// `null`
    Null,
    /// `group`, before the sets of a group.
    Group,
}

impl TraceLine {
    /// What a line tells, which stands here without its newline; `None` where it is no line of a trace. What follows the
    /// word of an entry isn't judged.
    pub fn of(line: &[u8]) -> Option<TraceLine>
        ensures told { TellsLine line.now result }
        ensures event { (event : ℕ) → IsEventsLine line.now event ↔ (event_of result ≡ Some event) }
    {
        let (first, rest) = cut_word(line);
        let rest = rest?;
        if first == b"event".as_slice() {
            return event_line(rest);
        }
        if first == b"fault".as_slice() {
            let fault = reason(rest)?;
            return Some(TraceLine::Fault(fault));
        }
        let depth = number(first, LARGEST)?;
        let kind = LineKind::of(rest)?;
        Some(TraceLine::At(depth, kind))
    }

    /// The number of the event that was accepted or refused by a line, which stands here without its newline; `None` where
    /// it is no such line.
    pub fn event(line: &[u8]) -> Option<u64>
        ensures { (event : ℕ) → IsEventsLine line.now event ↔ (result ≡ Some event) }
    {
        match TraceLine::of(line)? {
            TraceLine::Accepted(event) => Some(event),
            TraceLine::Refused(event, _) => Some(event),
            TraceLine::At(_, _) | TraceLine::Fault(_) => None,
        }
    }
}

/// What a line tells that begins with `event`, by what follows that word.
fn event_line(text: &[u8]) -> Option<TraceLine>
    ensures { TellsEnd text.now result }
{
    let (digits, rest) = cut_word(text);
    let event = number(digits, LARGEST)?;
    let Some(rest) = rest else {
        return Some(TraceLine::Accepted(event));
    };
    let reason = refusal(rest)?;
    Some(TraceLine::Refused(event, reason))
}

/// The number of a reason behind the word `refused`; `None` where the text is anything else.
fn refusal(text: &[u8]) -> Option<u8>
    ensures { TellsReason text.now result }
{
    let (word, rest) = cut_word(text);
    let rest = rest?;
    if word == b"refused".as_slice() {
        reason(rest)
    } else {
        None
    }
}

/// The number of a reason or of a fault.
fn reason(digits: &[u8]) -> Option<u8>
    ensures { TellsNumber digits.now result }
{
    let number = number(digits, LARGEST_REASON)?;
    Some(number as u8)
}

impl LineKind {
    /// What happens by this text, which begins with the word for it; `None` where no entry begins so.
    pub fn of(text: &[u8]) -> Option<LineKind>
        ensures { TellsEntry text.now result }
    {
        let (word, rest) = cut_word(text);
        let Some(rest) = rest else {
            return match word {
                b"null" => Some(LineKind::Null),
                b"group" => Some(LineKind::Group),
                b"native" => Some(LineKind::Native),
                _ => None,
            };
        };
        if word == b"refused".as_slice() {
            let reason = reason(rest)?;
            return Some(LineKind::Refused(reason));
        }
        of_word(word)
    }

    /// Whether an activation begins with it, which is the innermost one then.
    pub fn begins(self) -> bool {
        match self {
            LineKind::Emit
            | LineKind::Call
            | LineKind::Dead
            | LineKind::Set
            | LineKind::Bind
            | LineKind::Group => true,
            LineKind::Native
            | LineKind::Post
            | LineKind::Follow
            | LineKind::Connect
            | LineKind::Disconnect
            | LineKind::Refused(_)
            | LineKind::Null => false,
        }
    }
}

/// What happens by this word, which something follows.
fn of_word(word: &[u8]) -> Option<LineKind>
    ensures { TellsPlain word.now result }
{
    match word {
        b"emit" => Some(LineKind::Emit),
        b"call" => Some(LineKind::Call),
        b"native" => Some(LineKind::Native),
        b"post" => Some(LineKind::Post),
        b"dead" => Some(LineKind::Dead),
        b"set" => Some(LineKind::Set),
        b"bind" => Some(LineKind::Bind),
        b"follow" => Some(LineKind::Follow),
        b"connect" => Some(LineKind::Connect),
        b"disconnect" => Some(LineKind::Disconnect),
        _ => None,
    }
}
