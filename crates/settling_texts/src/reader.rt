//! Reads a settling certificate, line by line.

ghost use Rattle.std.specs.Prelude.{◌≡◌, [], ◌∷◌, ◌++◌, OnOk};
ghost use Rattle.settling_texts.specs.Grammar.{lines_of, sets_of};
ghost use Rattle.settling_texts.specs.Reads.{ReadsSettling};
ghost use Rattle.settling_texts.specs.code.Reads.{SplitsFirst, ReadsRows};

use crate::row::{SettlingRow, header, row, whole_depth};
use certificate_lang::{CertificateFault, next_row};
use settling::{SettlingCertificate, SettlingLine, SettlingSet};
use sqlite_items::Items;
use std::alloc::{AllocError, Global};
use texts::Lexer;

/// Reads a settling certificate: `settling 1`, `bound B S`, and behind them, in any order, a line `NODE RANK STEP {ITEM}` for
/// each node and a line `round R NODE {NODE}` for each set that comes to rest. Nodes and items are read as in a certificate of
/// version 2. A line ends at a newline or at the end of the text; lines that are empty, that is blank or a comment, are passed
/// over. Numbers are at most 2147483647. Time and memory are linear in the text.
///
/// - `Format`: the text isn't such.
/// - `Memory`: a growth of memory was refused.
pub fn read_settling_certificate(
    alloc: Global,
    bytes: &[u8],
) -> Result<SettlingCertificate, CertificateFault>
    ensures { ReadsSettling bytes.now result }
{
    let mut lexer = Lexer::new(alloc, bytes.len())?;
    let after = first_row(&mut lexer, bytes)?;
    header(alloc, lexer.tokens())?;
    let rest = first_row(&mut lexer, after)?;
    let depth = whole_depth(alloc, lexer.tokens())?;
    let (lines, sets) = rows(alloc, &mut lexer, rest)?;
    Ok(SettlingCertificate {
        bound: depth.bound,
        step: depth.step,
        lines,
        sets,
    })
}

/// The lines of nodes and of sets that the text is.
fn rows(
    alloc: Global,
    lexer: &mut Lexer,
    text: &[u8],
) -> Result<(Items<SettlingLine>, Items<SettlingSet>), CertificateFault>
    ensures { ReadsRows text.now result }
{
    let mut lines = Items::new(alloc);
    let mut sets = Items::new(alloc);
    let mut rest = text;
    while let Some(after) = next_row(lexer, rest)? {
        let said = row(alloc, lexer.tokens())?;
        add(said, &mut lines, &mut sets)?;
        rest = after;
    }
    Ok((lines, sets))
}

/// Adds what a line says to the lines of nodes, or to the sets.
fn add(
    said: SettlingRow,
    lines: &mut Items<SettlingLine>,
    sets: &mut Items<SettlingSet>,
) -> Result<(), AllocError>
    ensures lines { OnOk result (lines.new ≡ lines.old ++ lines_of (said ∷ [])) }
    ensures sets { OnOk result (sets.new ≡ sets.old ++ sets_of (said ∷ [])) }
{
    match said {
        SettlingRow::Line(line) => {
            lines.push(line)?;
            Ok(())
        }
        SettlingRow::Set(set) => {
            sets.push(set)?;
            Ok(())
        }
    }
}

/// Cuts the first line that isn't empty, which there has to be: the lexer has its tokens then. What follows the line.
fn first_row<'a>(lexer: &mut Lexer, text: &'a [u8]) -> Result<&'a [u8], CertificateFault>
    ensures { SplitsFirst text.now lexer.new result }
{
    match next_row(lexer, text)? {
        Some(after) => Ok(after),
        None => Err(CertificateFault::Format),
    }
}
