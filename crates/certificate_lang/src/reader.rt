//! Reads a certificate, line by line.

ghost use Rattle.std.specs.Prelude.{◌≡◌, ℕ, List, [], ◌∷◌, ◌++◌, ◌<◌, length, IfOk, IfSome, OnOk};
ghost use Rattle.certificate_lang.specs.Reads.{ReadsCertificate, HasOneCertificate};
ghost use Rattle.certificate_lang.specs.code.Reads.{SplitsRow, SplitsSetting, ReadsNodeLines, ReadsWholeSetting, ReadsLine};

use crate::certificate::{Certificate, Line};
use crate::fault::CertificateFault;
use crate::syntax::{has_few_parameters, line, read_setting};
use crate::version::Version;
use sqlite_items::Items;
use std::alloc::{AllocError, Global};
use texts::{Lexer, Token, split_line};
use token_reading::{Cursor, Trail, has_plain_reference};

/// Reads a certificate: `certificate 1` or `certificate 2`, `bound N`, and a line `NODE RANK {ITEM}` for each node, where a
/// node is `C.m(T, ..)`, `C.p` or `~C`, and an item of its set `C`, or in version 2 also `~C`. A line ends at a newline or
/// at the end of the text; lines that are empty, that is blank or a comment, are passed over. Numbers are at most
/// 2147483647, and signatures are read in their normal form. Time and memory are linear in the text.
///
/// - `Format`: the text isn't such.
/// - `Memory`: a growth of memory was refused.
pub fn read_certificate(alloc: Global, bytes: &[u8]) -> Result<Certificate, CertificateFault>
    ensures { ReadsCertificate bytes.now result }
{
    let mut lexer = Lexer::new(alloc, bytes.len())?;
    let (number, after) = setting_line(alloc, &mut lexer, bytes, b"certificate")?;
    let Some(version) = Version::of(number) else {
        return Err(CertificateFault::Format);
    };
    let (bound, rest) = setting_line(alloc, &mut lexer, after, b"bound")?;
    let lines = node_lines(alloc, &mut lexer, version, rest)?;
    Ok(Certificate { bound, lines })
}

/// A text is at most one certificate.
pub fn one_reading()
    ensures { (text : List ℕ) → HasOneCertificate text }
{}

/// Takes the first line that isn't empty, which has to be this name and a number: the number, and what follows the line.
fn setting_line<'a>(
    alloc: Global,
    lexer: &mut Lexer,
    text: &'a [u8],
    name: &'static [u8],
) -> Result<(u32, &'a [u8]), CertificateFault>
    ensures { SplitsSetting name.now text.now result }
{
    match next_row(lexer, text)? {
        Some(after) => {
            let number = whole_setting(alloc, lexer.tokens(), name)?;
            Ok((number, after))
        }
        None => Err(CertificateFault::Format),
    }
}

/// The lines of nodes that the text is, in this version.
fn node_lines(
    alloc: Global,
    lexer: &mut Lexer,
    version: Version,
    text: &[u8],
) -> Result<Items<Line>, CertificateFault>
    ensures { ReadsNodeLines version text.now result }
{
    let mut lines = Vec::new(alloc);
    let mut rest = text;
    while let Some(after) = next_row(lexer, rest)? {
        let line = node_line(alloc, version, lexer.tokens())?;
        add(&mut lines, line)?;
        rest = after;
    }
    // They are kept while the program is checked, which takes more memory.
    lines.shrink_to_fit();
    Ok(Items::from_vec(lines))
}

/// Adds the line to the end.
#[inline(always)]
fn add(lines: &mut Vec<Line>, line: Line) -> Result<(), AllocError>
    ensures { OnOk result (lines.new.items ≡ lines.old.items ++ line ∷ []) }
{
    lines.push(line)?;
    Ok(())
}

/// Cuts the first line that isn't empty: the lexer has its tokens then. What follows the line; or `None` where all are empty.
///
/// - `Format`: a line has a byte of no token.
/// - `Memory`: a growth of memory was refused.
pub fn next_row<'a>(lexer: &mut Lexer, text: &'a [u8]) -> Result<Option<&'a [u8]>, CertificateFault>
    ensures splits { SplitsRow text.now lexer.new result }
    ensures shorter { IfOk result (λ row.
        IfSome row (λ rest. length rest.now < length text.now)) }
{
    let mut rest = text;
    while let Some((line, after)) = split_line(rest) {
        lexer.cut(line)?;
        if !lexer.is_empty() {
            return Ok(Some(after));
        }
        rest = after;
    }
    Ok(None)
}

/// The number of the setting that the tokens are.
fn whole_setting(
    alloc: Global,
    tokens: &[Token],
    name: &'static [u8],
) -> Result<u32, CertificateFault>
    ensures { ReadsWholeSetting name.now tokens.now result }
{
    let mut cursor = Cursor::new(alloc, tokens);
    let number = read_setting(&mut cursor, name)?;
    if cursor.is_empty() {
        Ok(number)
    } else {
        Err(CertificateFault::Format)
    }
}

/// The line of a node that the tokens are, in this version.
fn node_line(alloc: Global, version: Version, tokens: &[Token]) -> Result<Line, CertificateFault>
    ensures { ReadsLine version tokens.now result }
{
    if has_plain_reference(tokens) {
        return Err(CertificateFault::Format);
    }
    let mut cursor = Cursor::new(alloc, tokens);
    let line = line(&mut cursor, version)?;
    if !cursor.is_empty() {
        return Err(CertificateFault::Format);
    }
    if has_few_parameters(&line.node.member) {
        Ok(line)
    } else {
        Err(CertificateFault::Format)
    }
}

/// What a line of a certificate that isn't empty is to be.
#[derive(Clone, Copy, Debug, PartialEq, Eq)]
pub enum Row {
    /// The first one, `certificate N`.
    Version,
    /// The second one, `bound N`.
    Bound,
    /// A later one, `NODE RANK {ITEM}`, in this version.
    Node(Version),
}

/// The way of the reader of such lines through the tokens of one: what was looked for where it came farthest.
pub fn row_trail(alloc: Global, tokens: &[Token], row: Row) -> Option<Trail> {
    let mut cursor = Cursor::recording(alloc, tokens);
    let is_read = match row {
        Row::Version => read_setting(&mut cursor, b"certificate").is_ok(),
        Row::Bound => read_setting(&mut cursor, b"bound").is_ok(),
        Row::Node(version) => line(&mut cursor, version).is_ok(),
    };
    if is_read {
        cursor.want_end();
    }
    cursor.into_trail()
}
