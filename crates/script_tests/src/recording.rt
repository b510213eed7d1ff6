//! A script with the comments that a run of it meets.

use crate::expected::{Expected, ExpectedAnswer, FAULT, MARK, REFUSED, wanted_line};
use crate::happened::Happened;
use crate::judging::Test;
use std::alloc::{AllocError, Global};

/// Events that write lines or none, as the state is: of one that wrote none it is recorded that it is to write none. All others
/// always write some, or never do.
const MAY_BE_SILENT: [&[u8]; 2] = [b"turn", b"later"];

/// A script as it is recorded.
#[derive(Drop)]
pub struct Recorded {
    /// Its text.
    pub script: Vec<u8>,
    /// Of how many events it expects something else than before.
    pub changed: usize,
}

/// The script of these tests, with comments that expect what happened: behind an event how it was answered, where that
/// isn't simply accepted, and below it the lines that the run wrote. What is there and was met stays as it is, and so does
/// what is there of events that weren't run; all other lines stay in any case.
pub fn record(alloc: Global, script: &[u8], tests: &[Test<'_>]) -> Result<Recorded, AllocError> {
    let mut recorder = Recorder {
        script: Vec::with_capacity(alloc, script.len())?,
        changed: 0,
        is_stopped: false,
        comments: Comments::Stay,
    };
    let mut tests = tests.iter();
    let mut next = tests.next();
    let lines = script.split_inclusive(|byte| *byte == b'\n');
    for (place, line) in lines.enumerate() {
        match next {
            Some(test) if test.expected.line == place.saturating_add(1) => {
                recorder.add_event(test, line)?;
                next = tests.next();
            }
            _ => recorder.add_line(line)?,
        }
    }
    let Recorder {
        script,
        changed,
        ..
    } = recorder;
    Ok(Recorded { script, changed })
}

/// A script that is being recorded.
#[derive(Drop)]
struct Recorder<'r> {
    script: Vec<u8>,
    changed: usize,
    /// Whether the run stopped at an event before.
    is_stopped: bool,
    /// What is done with the comments that come, which are those of the last event.
    comments: Comments<'r>,
}

/// What is done with comments that expect lines.
#[derive(Clone, Copy)]
enum Comments<'r> {
    /// They stay as they are.
    Stay,
    /// In the place of the first one comes what is told of an event, and the others go.
    Become(RecordedLines<'r>),
    /// They go.
    Go,
}

/// What is told of an event's lines.
#[derive(Clone, Copy)]
enum RecordedLines<'r> {
    /// Nothing.
    Nothing,
    /// That there are none.
    Silence,
    /// These, each with its newline.
    Lines(&'r [u8]),
}

/// What stands behind an event.
#[derive(Clone, Copy, PartialEq, Eq)]
enum RecordedEnding {
    /// Nothing: it is accepted, and the run goes on.
    Nothing,
    /// That it is refused with this number.
    Refused(u8),
    /// That the run stops with this fault.
    Fault(u8),
}

impl<'r> Recorder<'r> {
    /// Adds the line of an event, and where there are no comments yet what is told of its lines.
    fn add_event(&mut self, test: &Test<'r>, line: &[u8]) -> Result<(), AllocError> {
        let Test { expected, happened } = test;
        let is_run = !self.is_stopped && (happened.answer.is_some() || happened.fault.is_some());
        self.is_stopped |= happened.answer.is_none() || happened.fault.is_some();
        if !is_run {
            self.comments = Comments::Stay;
            return self.script.extend_from_slice(line);
        }
        let (old, new) = (
            RecordedEnding::expected(expected),
            RecordedEnding::happened(happened),
        );
        match old == new {
            true => self.script.extend_from_slice(line)?,
            false => self.push_event(expected.event, line, new)?,
        }
        let told = RecordedLines::of(expected, happened);
        let has_lines = match &expected.lines {
            Some(lines) if lines.as_slice() == happened.lines => {
                self.comments = Comments::Stay;
                true
            }
            Some(_) => {
                self.comments = Comments::Become(told);
                false
            }
            None => {
                self.comments = Comments::Go;
                self.push_told(told, line)?;
                matches!(told, RecordedLines::Nothing)
            }
        };
        if old != new || !has_lines {
            self.changed = self.changed.saturating_add(1);
        }
        Ok(())
    }

    /// Adds a line that has no event.
    fn add_line(&mut self, line: &[u8]) -> Result<(), AllocError> {
        if wanted_line(line).is_none() {
            return self.script.extend_from_slice(line);
        }
        match self.comments {
            Comments::Stay => self.script.extend_from_slice(line),
            Comments::Go => Ok(()),
            Comments::Become(told) => {
                self.comments = Comments::Go;
                self.push_told(told, line)
            }
        }
    }

    /// Adds the line of an event with another ending. What stands between the two stays.
    fn push_event(
        &mut self,
        event: &[u8],
        line: &[u8],
        ending: RecordedEnding,
    ) -> Result<(), AllocError> {
        let behind = line.trim_ascii_start();
        let behind = behind.strip_prefix(event).unwrap_or(&[]);
        let blanks = behind.trim_ascii_end();
        let blanks = blanks.len().saturating_sub(blanks.trim_ascii_start().len());
        self.script.extend_from_slice(indent_of(line))?;
        self.script.extend_from_slice(event)?;
        if ending != RecordedEnding::Nothing {
            let gap = behind.get(..blanks).unwrap_or(&[]);
            self.script
                .extend_from_slice(if gap.is_empty() { b" " } else { gap })?;
            ending.push(&mut self.script)?;
        }
        if line.strip_suffix(b"\n".as_slice()).is_some() {
            self.script.extend_from_slice(break_of(line))?;
        }
        Ok(())
    }

    /// Adds what is told of an event's lines: each with the blanks in front and the line break that this line has.
    fn push_told(&mut self, told: RecordedLines<'_>, line: &[u8]) -> Result<(), AllocError> {
        match told {
            RecordedLines::Nothing => Ok(()),
            RecordedLines::Silence => self.push_comment(&[], line),
            RecordedLines::Lines(lines) => {
                for wanted in lines.split_inclusive(|byte| *byte == b'\n') {
                    self.push_comment(wanted.trim_ascii(), line)?;
                }
                Ok(())
            }
        }
    }

    /// Adds a comment that expects this line, or none.
    fn push_comment(&mut self, wanted: &[u8], line: &[u8]) -> Result<(), AllocError> {
        if let Some(byte) = self.script.last() {
            if *byte != b'\n' {
                self.script.push(b'\n')?;
            }
        }
        self.script.extend_from_slice(indent_of(line))?;
        self.script.extend_from_slice(MARK.as_bytes())?;
        if !wanted.is_empty() {
            self.script.push(b' ')?;
            self.script.extend_from_slice(wanted)?;
        }
        self.script.extend_from_slice(break_of(line))
    }
}

impl<'r> RecordedLines<'r> {
    /// What is told of the lines of an event.
    fn of(expected: &Expected<'_>, happened: &Happened<'r>) -> RecordedLines<'r> {
        let word = expected
            .event
            .split(|byte| *byte == b' ')
            .next()
            .unwrap_or(&[]);
        let is_whole = happened.fault.is_none()
            && happened.answer == Some(ExpectedAnswer::Accepted);
        if !happened.lines.is_empty() {
            RecordedLines::Lines(happened.lines)
        } else if is_whole && MAY_BE_SILENT.iter().any(|it| *it == word) {
            RecordedLines::Silence
        } else {
            RecordedLines::Nothing
        }
    }
}

impl RecordedEnding {
    /// What a script has behind an event.
    fn expected(expected: &Expected<'_>) -> RecordedEnding {
        match (expected.answer, expected.fault) {
            (_, Some(number)) => RecordedEnding::Fault(number),
            (ExpectedAnswer::Refused(number), None) => RecordedEnding::Refused(number),
            (ExpectedAnswer::Accepted, None) => RecordedEnding::Nothing,
        }
    }

    /// What a trace tells of an event.
    fn happened(happened: &Happened<'_>) -> RecordedEnding {
        match (happened.answer, happened.fault) {
            (Some(ExpectedAnswer::Refused(number)), _) => RecordedEnding::Refused(number),
            (_, Some(number)) => RecordedEnding::Fault(number),
            (_, None) => RecordedEnding::Nothing,
        }
    }

    /// Adds the comment that says so.
    fn push(self, script: &mut Vec<u8>) -> Result<(), AllocError> {
        let mut text = String::new(*script.allocator());
        match self {
            RecordedEnding::Nothing => {}
            RecordedEnding::Refused(number) => write!(text, "{REFUSED} {number}")?,
            RecordedEnding::Fault(number) => write!(text, "{FAULT} {number}")?,
        }
        script.extend_from_slice(text.as_bytes())
    }
}

/// The blanks with which a line begins.
fn indent_of(line: &[u8]) -> &[u8] {
    let count = line.len().saturating_sub(line.trim_ascii_start().len());
    line.get(..count).unwrap_or(&[])
}

/// The line break of a line, or of the text's other lines where it is the last one.
fn break_of(line: &[u8]) -> &'static [u8] {
    match line.strip_suffix(b"\r\n".as_slice()) {
        Some(_) => b"\r\n",
        None => b"\n",
    }
}
