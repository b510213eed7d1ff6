//! The sections of a file, each with the line that it begins with.

ghost use Rattle.std.specs.Prelude.{◌≡◌, IfOk, IfSome, []};

use crate::files::escapes::push_unescaped;
use crate::files::fault::CaseFault;
use std::alloc::{AllocError, Global};
use std::str;

/// What a section gives.
#[derive(Clone, Copy, Debug, PartialEq, Eq)]
pub enum CasePart {
    /// What the file is about.
    Preface,
    /// What a case is about; with it the case begins.
    Title,
    /// A command line.
    Words,
    /// A whole input.
    Input,
    /// A program.
    Program,
    /// A certificate.
    Certificate,
    /// A script.
    Script,
    /// What is written on standard output.
    Output,
    /// What is written on standard error.
    Errors,
    /// The exit status.
    Status,
    /// That sentences on refused events are asked for.
    Explained,
}

impl CasePart {
    /// The part whose sections have this name.
    fn named(name: &str) -> Option<CasePart> {
        match name {
            "words" => Some(CasePart::Words),
            "input" => Some(CasePart::Input),
            "program" => Some(CasePart::Program),
            "certificate" => Some(CasePart::Certificate),
            "script" => Some(CasePart::Script),
            "output" => Some(CasePart::Output),
            "errors" => Some(CasePart::Errors),
            "status" => Some(CasePart::Status),
            "explained" => Some(CasePart::Explained),
            _ => None,
        }
    }

    /// Whether the lines below such a section's first one are its text.
    fn has_text(self) -> bool {
        match self {
            CasePart::Input
            | CasePart::Program
            | CasePart::Certificate
            | CasePart::Script
            | CasePart::Output
            | CasePart::Errors => true,
            CasePart::Preface
            | CasePart::Title
            | CasePart::Words
            | CasePart::Status
            | CasePart::Explained => false,
        }
    }
}

/// How the lines of a section are meant.
#[derive(Clone, Copy, Debug, PartialEq, Eq)]
pub struct SectionMarks {
    /// The last newline isn't part of the text.
    pub is_bare: bool,
    /// A backslash begins an escape.
    pub is_escaped: bool,
    /// The text stands so many times.
    pub times: usize,
}

impl SectionMarks {
    /// The lines as they stand, once.
    pub const NONE: SectionMarks = SectionMarks {
        is_bare: false,
        is_escaped: false,
        times: 1,
    };

    /// The marks that these words are; `None` for other words.
    fn of(words: &str) -> Option<SectionMarks> {
        let mut marks = SectionMarks::NONE;
        for word in words.split(' ') {
            match word {
                "bare" => marks.is_bare = true,
                "escaped" => marks.is_escaped = true,
                "times" | "" => {}
                _ => marks.times = word.parse::<usize>().ok()?,
            }
        }
        Some(marks)
    }
}

/// A section of a file.
#[derive(Drop)]
pub struct Section {
    /// What it gives.
    pub part: CasePart,
    /// The number of its first line in the file, counted from 1; 0 of the preface, which has none.
    pub line: usize,
    /// What follows the name in the first line: of a title the title, of words the words, of a status the status.
    pub head: String,
    /// How its lines are meant.
    pub marks: SectionMarks,
    /// Its lines, each with a newline, without the first one.
    pub lines: Vec<u8>,
}

impl Section {
    /// What comes before the first case.
    pub fn preface(alloc: Global) -> Section
        ensures part { result.part ≡ CasePart.Preface }
        ensures line { result.line ≡ 0 }
        ensures empty { result.lines.items ≡ [] }
    {
        Section {
            part: CasePart::Preface,
            line: 0,
            head: String::new(alloc),
            marks: SectionMarks::NONE,
            lines: Vec::new(alloc),
        }
    }

    /// The section that this line begins, if it begins one, without lines of its own. `Malformed` where it begins as a
    /// section's first line does and is none.
    pub fn begun(alloc: Global, line: usize, text: &[u8]) -> Result<Option<Section>, CaseFault>
        ensures line { IfOk result (λ found. IfSome found (λ section. section.line ≡ line)) }
        ensures empty { IfOk result (λ found. IfSome found (λ section. section.lines.items ≡ [])) }
    {
        if let Some(title) = text.strip_prefix(b"=== ".as_slice()) {
            return Ok(Some(Section {
                part: CasePart::Title,
                line,
                head: String::from_str(alloc, text_of(line, title)?)?,
                marks: SectionMarks::NONE,
                lines: Vec::new(alloc),
            }));
        }
        match text.strip_prefix(b"--- ".as_slice()) {
            Some(heading) => Ok(Some(headed(alloc, line, text_of(line, heading)?)?)),
            None => Ok(None),
        }
    }

    /// Adds a line below the first one. `Malformed` where the section has no text and the line is no comment.
    pub fn add(&mut self, line: usize, text: &[u8]) -> Result<(), CaseFault>
        ensures part { self.new.part ≡ self.old.part }
        ensures line { self.new.line ≡ self.old.line }
    {
        if self.part.has_text() {
            self.lines.extend_from_slice(text)?;
            self.lines.push(b'\n').map_err(AllocError::from)?;
            return Ok(());
        }
        let may_have_comments = matches!(&self.part, CasePart::Preface | CasePart::Title);
        if may_have_comments && (text.is_empty() || text.starts_with(b"#")) {
            Ok(())
        } else {
            Err(CaseFault::Malformed(line, "no section has this line"))
        }
    }

    /// Adds the section's text: its lines as its marks say.
    pub fn push_text(&self, alloc: Global, text: &mut Vec<u8>) -> Result<(), CaseFault> {
        let lines = self.lines.as_slice();
        let once = if self.marks.is_bare {
            lines.strip_suffix(b"\n".as_slice()).unwrap_or(lines)
        } else {
            lines
        };
        for copy in 0..self.marks.times {
            if self.marks.is_escaped {
                if !push_unescaped(alloc, text, once, copy)? {
                    let reason = "an escape is `\\n`, `\\\\`, `\\#` or `\\x` with two digits";
                    return Err(CaseFault::Malformed(self.line, reason));
                }
            } else {
                text.extend_from_slice(once)?;
            }
        }
        Ok(())
    }
}

/// The section that a line begins with this behind its `--- `.
fn headed(alloc: Global, line: usize, heading: &str) -> Result<Section, CaseFault>
    ensures line { IfOk result (λ section. section.line ≡ line) }
    ensures empty { IfOk result (λ section. section.lines.items ≡ []) }
{
    let (name, rest) = heading.split_once(' ').unwrap_or((heading, ""));
    let Some(part) = CasePart::named(name) else {
        return Err(CaseFault::Malformed(line, "no section has this name"));
    };
    let marks = if part.has_text() {
        match SectionMarks::of(rest) {
            Some(marks) => marks,
            None => return Err(CaseFault::Malformed(line, "no section has this mark")),
        }
    } else {
        SectionMarks::NONE
    };
    Ok(Section {
        part,
        line,
        head: String::from_str(alloc, rest)?,
        marks,
        lines: Vec::new(alloc),
    })
}

/// The text that the bytes of a line are.
fn text_of(line: usize, bytes: &[u8]) -> Result<&str, CaseFault> {
    match str::from_utf8(bytes) {
        Ok(text) => Ok(text),
        Err(_) => Err(CaseFault::Malformed(line, "the line is no text")),
    }
}
