//! What a person is told of a flaw.

use crate::excerpt::push_excerpt;
use crate::flaw::Flaw;
use crate::place::{TextPlace, line_around};
use crate::spans::Span;
use std::alloc::AllocError;

/// How grave what is reported is.
#[derive(Clone, Copy, Debug, PartialEq, Eq)]
pub enum Severity {
    /// The text is refused.
    Error,
    /// The text is read, and may mean something else than it seems to.
    Warning,
}

/// A text of an input, as a person calls it.
#[derive(Clone, Copy, Debug, PartialEq, Eq)]
pub enum TextKind {
    Program,
    Certificate,
    Script,
}

impl Severity {
    fn name(self) -> &'static str {
        match self {
            Severity::Error => "error",
            Severity::Warning => "warning",
        }
    }
}

impl TextKind {
    /// What it is called.
    pub fn name(self) -> &'static str {
        match self {
            TextKind::Program => "program",
            TextKind::Certificate => "certificate",
            TextKind::Script => "script",
        }
    }

    /// Where it stands among the texts of an input: the program is the first one, a certificate follows it, and a script
    /// is the last one.
    pub fn span(self, spans: &[Span]) -> Option<Span> {
        let span = match self {
            TextKind::Program => spans.first()?,
            TextKind::Certificate => spans.get(1)?,
            TextKind::Script => spans.last()?,
        };
        Some(*span)
    }
}

/// A line of a text of the input.
#[derive(Clone, Copy)]
pub struct TextLine<'t> {
    /// Which text it is of.
    pub kind: TextKind,
    /// What it has, without its newline.
    pub bytes: &'t [u8],
    /// How many of its bytes stand in front of the text: none but where the input ends with the line that parts texts.
    pub before: usize,
    /// Its number in the input, counted from 1.
    pub of_input: usize,
    /// Its number in the text, counted from 1.
    pub of_text: usize,
}

impl<'t> TextLine<'t> {
    /// The line around a byte of a text of the input, and which byte of the line that is.
    fn around(input: &'t [u8], span: Span, kind: TextKind, at: usize) -> (TextLine<'t>, usize) {
        let source = input.get(span.begin..span.end).unwrap_or(&[]);
        let in_text = at.min(source.len());
        let in_input = span.begin.saturating_add(in_text).min(input.len());
        let (begin, end) = line_around(input, in_input);
        let line = TextLine {
            kind,
            bytes: input.get(begin..end).unwrap_or(&[]),
            before: span.begin.saturating_sub(begin),
            of_input: TextPlace::of(input, in_input).line,
            of_text: TextPlace::of(source, in_text).line,
        };
        (line, in_input.saturating_sub(begin))
    }

    /// Adds what is wrong with the text at this byte of the line: `<stdin>:LINE:COLUMN: error: SENTENCE`, where the line is that
    /// of the input; the place in the text itself, the line with a caret, and what to write instead.
    pub fn push(
        self,
        text: &mut String,
        severity: Severity,
        at: usize,
        sentence: &str,
        advice: Option<&str>,
    ) -> Result<(), AllocError> {
        let at = at.min(self.bytes.len());
        let (line, line_of_text) = (self.of_input, self.of_text);
        let column = at.saturating_add(1);
        let column_of_text = column.saturating_sub(self.before);
        let (grave, name) = (severity.name(), self.kind.name());
        writeln!(text, "<stdin>:{line}:{column}: {grave}: {sentence}")?;
        writeln!(
            text,
            " at line {line_of_text}, column {column_of_text} of the {name}"
        )?;
        push_excerpt(text, self.bytes, at)?;
        if let Some(advice) = advice {
            text.push_str("help: ")?;
            text.push_str(advice)?;
            text.push('\n')?;
        }
        Ok(())
    }
}

/// Adds what is wrong with a text of the input, as `TextLine::push` does.
pub fn push_flaw(
    text: &mut String,
    severity: Severity,
    input: &[u8],
    span: Span,
    kind: TextKind,
    flaw: &Flaw,
) -> Result<(), AllocError> {
    let (line, at) = TextLine::around(input, span, kind, flaw.at);
    let advice = flaw.advice.as_ref().map(|advice| advice.as_str());
    line.push(text, severity, at, flaw.sentence.as_str(), advice)
}
