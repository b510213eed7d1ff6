//! What a line of a settling certificate says, by its tokens.

ghost use Rattle.std.specs.Prelude.{◌↔◌, IsTrue};
ghost use Rattle.settling_texts.specs.code.Reads.{ReadsHeader, ReadsWholeDepth, ReadsWholeLine, ReadsWholeSet, ReadsRow, IsAtNumber};

use crate::syntax::{Depth, bound_and_step, have_few_parameters, line, set};
use certificate_lang::{CertificateFault, has_few_parameters, read_setting};
use settling::{SettlingLine, SettlingSet};
use std::alloc::Global;
use texts::Token;
use token_reading::{Cursor, has_plain_reference};

/// The version of the format.
const VERSION: u32 = 1;

/// What a line behind the first two says.
#[derive(Drop)]
pub enum SettlingRow {
    /// `NODE RANK STEP {ITEM}`
    Line(SettlingLine),
    /// `round R NODE {NODE}`
    Set(SettlingSet),
}

/// Whether the tokens are `settling 1`: they have to be.
pub fn header(alloc: Global, tokens: &[Token]) -> Result<(), CertificateFault>
    ensures { ReadsHeader tokens.now result }
{
    let mut cursor = Cursor::new(alloc, tokens);
    let version = read_setting(&mut cursor, b"settling")?;
    if !cursor.is_empty() {
        return Err(CertificateFault::Format);
    }
    if version == VERSION {
        Ok(())
    } else {
        Err(CertificateFault::Format)
    }
}

/// The bound and the step that the tokens are.
pub fn whole_depth(alloc: Global, tokens: &[Token]) -> Result<Depth, CertificateFault>
    ensures { ReadsWholeDepth tokens.now result }
{
    let mut cursor = Cursor::new(alloc, tokens);
    let depth = bound_and_step(&mut cursor)?;
    if cursor.is_empty() {
        Ok(depth)
    } else {
        Err(CertificateFault::Format)
    }
}

/// What the tokens of a line behind the first two say.
pub fn row(alloc: Global, tokens: &[Token]) -> Result<SettlingRow, CertificateFault>
    ensures { ReadsRow tokens.now result }
{
    if is_at_number(tokens) {
        let set = whole_set(alloc, tokens)?;
        Ok(SettlingRow::Set(set))
    } else {
        let line = whole_line(alloc, tokens)?;
        Ok(SettlingRow::Line(line))
    }
}

/// Whether the second token is a number, as it is in the line of a set and of no node.
fn is_at_number(tokens: &[Token]) -> bool
    ensures { IsTrue result ↔ IsAtNumber tokens.now }
{
    let Some((_, rest)) = tokens.split_first() else {
        return false;
    };
    match rest.split_first() {
        Some((Token::Number(_), _)) => true,
        _ => false,
    }
}

/// The line of a node that the tokens are.
fn whole_line(alloc: Global, tokens: &[Token]) -> Result<SettlingLine, CertificateFault>
    ensures { ReadsWholeLine tokens.now result }
{
    if has_plain_reference(tokens) {
        return Err(CertificateFault::Format);
    }
    let mut cursor = Cursor::new(alloc, tokens);
    let line = line(&mut cursor)?;
    if !cursor.is_empty() {
        return Err(CertificateFault::Format);
    }
    if has_few_parameters(&line.node.member) {
        Ok(line)
    } else {
        Err(CertificateFault::Format)
    }
}

/// The line of a set that the tokens are.
fn whole_set(alloc: Global, tokens: &[Token]) -> Result<SettlingSet, CertificateFault>
    ensures { ReadsWholeSet tokens.now result }
{
    if has_plain_reference(tokens) {
        return Err(CertificateFault::Format);
    }
    let mut cursor = Cursor::new(alloc, tokens);
    let set = set(&mut cursor)?;
    if !cursor.is_empty() {
        return Err(CertificateFault::Format);
    }
    if have_few_parameters(&set.members) {
        Ok(set)
    } else {
        Err(CertificateFault::Format)
    }
}
