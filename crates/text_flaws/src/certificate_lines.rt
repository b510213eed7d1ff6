//! Which lines of a certificate, or of a settling one, are wrong: behind one that is, a reader goes on at the next one.

ghost use Rattle.std.specs.Prelude.{◌≤◌, length, All, IfOk};

use crate::certificates::{CertificateForm, ends_early, row_flaw, version_of};
use crate::parts::{placed_or_flaw, within};
use crate::unexpected::{TokenizedText, VERBS};
use certificate_lang::{Row, Version};
use diagnostics::{Flaw, nearest, placed_or_none};
use std::alloc::{AllocError, Global};
use texts::{Symbol, Token, Word, split_line};

/// The word with which the line of the bound begins.
const BOUND: &[u8] = b"bound";

/// What is awaited of a certificate, as far as that is known behind lines that are wrong.
#[derive(Clone, Copy, Debug, PartialEq, Eq)]
enum Awaited {
    /// The version.
    Version,
    /// The version, behind a line in its place that names none: without it no other line can be judged.
    LateVersion,
    /// The bound, in this version.
    Bound(Version),
    /// A line behind the bound, in this version, or the bound itself, in whose place another line stood.
    LateBound(Version),
    /// A line behind the bound, in this version.
    Node(Version),
    /// Nothing that can be judged: another text has begun.
    OtherText,
}

impl Awaited {
    /// What a line of these tokens is to be; `None` where that isn't known.
    fn row(self, form: CertificateForm, source: TokenizedText) -> Option<Row> {
        match self {
            Awaited::Version => Some(Row::Version),
            Awaited::LateVersion if source.spelled(0) == form.word() => Some(Row::Version),
            Awaited::LateVersion | Awaited::OtherText => None,
            Awaited::Bound(_) => Some(Row::Bound),
            Awaited::LateBound(_) if is_bound(source) => Some(Row::Bound),
            Awaited::LateBound(version) | Awaited::Node(version) => Some(Row::Node(version)),
        }
    }

    /// What is awaited behind a line of these tokens, which was to be this row, and is or isn't wrong.
    fn behind(
        self,
        alloc: Global,
        form: CertificateForm,
        source: TokenizedText,
        row: Row,
        is_wrong: bool,
    ) -> Result<Awaited, AllocError> {
        if is_wrong && begins_other_text(form, source) {
            return Ok(Awaited::OtherText);
        }
        match (row, self) {
            (Row::Version, _) => {
                let is_meant = !is_wrong || begins_like(alloc, source, form.word())?;
                match version_of(form, source) {
                    Some(version) if is_meant => Ok(Awaited::Bound(version)),
                    _ => Ok(Awaited::LateVersion),
                }
            }
            (Row::Bound, Awaited::Bound(version) | Awaited::LateBound(version)) => {
                let is_meant = !is_wrong || is_bound_like(alloc, source)?;
                if is_meant {
                    Ok(Awaited::Node(version))
                } else {
                    Ok(Awaited::LateBound(version))
                }
            }
            _ => Ok(self),
        }
    }

    /// Whether a certificate that ends here ends too early, and nothing that is wrong before says so.
    fn is_lacking(self) -> bool {
        matches!(self, Awaited::Version | Awaited::Bound(_))
    }
}

/// What is wrong with the lines of a certificate, so many flaws at most: of each line that is none of its lines one, and none
/// behind what is of another text. A line in front of which no version is named isn't judged.
pub fn certificate_flaws(alloc: Global, text: &[u8], most: usize) -> Result<Vec<Flaw>, AllocError>
    ensures { IfOk result (λ flaws. All (λ f. f.at ≤ length text.now) flaws.items) }
{
    wrong_lines(alloc, CertificateForm::Plain, text, most)
}

/// The same of a settling certificate.
pub fn settling_flaws(alloc: Global, text: &[u8], most: usize) -> Result<Vec<Flaw>, AllocError>
    ensures { IfOk result (λ flaws. All (λ f. f.at ≤ length text.now) flaws.items) }
{
    wrong_lines(alloc, CertificateForm::Settling, text, most)
}

/// What is wrong with the lines of such a certificate, so many flaws at most.
fn wrong_lines(
    alloc: Global,
    form: CertificateForm,
    text: &[u8],
    most: usize,
) -> Result<Vec<Flaw>, AllocError>
    ensures { IfOk result (λ flaws. All (λ f. f.at ≤ length text.now) flaws.items) }
{
    let mut flaws = Vec::new(alloc);
    let mut left = text;
    let mut awaited = Awaited::Version;
    while let Some((line, rest)) = split_line(left) {
        if flaws.len() >= most {
            return Ok(flaws);
        }
        let begin = text.len().saturating_sub(left.len());
        let (flaw, next) = judged_line(alloc, form, line, awaited)?;
        if let Some(flaw) = within(begin, text.len(), flaw) {
            flaws.push(flaw)?;
        }
        awaited = next;
        left = rest;
    }
    if awaited.is_lacking() && flaws.len() < most {
        let early = ends_early(alloc, form, text.len())?;
        flaws.push(early.within(0, text.len()))?;
    }
    Ok(flaws)
}

/// What is wrong with a line where this is awaited, and what is awaited behind it.
fn judged_line(
    alloc: Global,
    form: CertificateForm,
    line: &[u8],
    awaited: Awaited,
) -> Result<(Option<Flaw>, Awaited), AllocError> {
    // Of a line with a byte that begins no token those in front of it say what the line was to be.
    let (placed, bad) = match placed_or_flaw(alloc, line)? {
        Ok(placed) => (placed, None),
        Err(flaw) => {
            let front = line.get(..flaw.at).unwrap_or(&[]);
            (placed_or_none(alloc, front)?, Some(flaw))
        }
    };
    if placed.is_empty() && bad.is_none() {
        return Ok((None, awaited));
    }
    let source = TokenizedText {
        text: line,
        tokens: placed.as_slice(),
    };
    let Some(row) = awaited.row(form, source) else {
        return Ok((None, awaited));
    };
    let flaw = match bad {
        Some(flaw) => Some(flaw),
        None => row_flaw(alloc, form, source, row)?,
    };
    let next = awaited.behind(alloc, form, source, row, flaw.is_some())?;
    Ok((flaw, next))
}

/// Whether a line is the bound's by its first word, and no line of a node of a class that is called so.
fn is_bound(source: TokenizedText) -> bool {
    source.spelled(0) == BOUND && !source.is(1, Symbol::Dot)
}

/// The same of a line whose first word may be misspelled.
fn is_bound_like(alloc: Global, source: TokenizedText) -> Result<bool, AllocError> {
    Ok(begins_like(alloc, source, BOUND)? && !source.is(1, Symbol::Dot))
}

/// Whether a line begins with this word, or with one that may be meant for it.
fn begins_like(alloc: Global, source: TokenizedText, word: &[u8]) -> Result<bool, AllocError> {
    let found = nearest(alloc, source.spelled(0), &[word])?;
    Ok(found.is_some())
}

/// Whether a line that is wrong is one of a program, of a script or of the other sort of certificates.
fn begins_other_text(form: CertificateForm, source: TokenizedText) -> bool {
    let first = source.spelled(0);
    match source.token(0) {
        Some(Token::Word(Word::Class | Word::Wire | Word::Owns | Word::Binding)) => true,
        _ if first == form.other_word() => matches!(source.token(1), Some(Token::Number(_))),
        _ => VERBS.iter().any(|verb: &&[u8]| *verb == first) && source.is_name(1),
    }
}
