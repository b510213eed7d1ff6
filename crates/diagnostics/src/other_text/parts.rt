//! The parts of a line, and the numbers among them.

ghost use Rattle.std.specs.Prelude.{◌<◌, length, map, IfOk, IfSome};
ghost use Rattle.diagnostics.specs.OtherPlaces.{AreParts};
ghost use Rattle.diagnostics.specs.code.Parting.{SplitsPart, FindsCount};

use memchr::memchr;
use sqlite_items::Items;
use std::alloc::{AllocError, Global};
use texts::number;

/// What parts a line.
const TAB: u8 = 9;

/// The greatest number of a line or a column.
const GREATEST: u64 = 4_294_967_295;

/// The parts of a line, of which there is one at least.
pub fn parts<'t>(alloc: Global, line: &'t [u8]) -> Result<Items<&'t [u8]>, AllocError>
    ensures { IfOk result (λ parts. AreParts line.now (map (λ part. part.now) parts)) }
{
    let mut parts = Items::new(alloc);
    let mut left = line;
    while let Some((part, rest)) = split_part(left) {
        parts.push(part)?;
        left = rest;
    }
    parts.push(left)?;
    Ok(parts)
}

/// What comes before the first tab, and what follows it; `None` where there is none.
fn split_part(text: &[u8]) -> Option<(&[u8], &[u8])>
    ensures part { SplitsPart text.now result }
    ensures shorter { IfSome result (λ parts. length parts.1.now < length text.now) }
{
    match memchr(TAB, text) {
        Some(at) => Some((&text[..at], &text[at + 1..])),
        None => None,
    }
}

/// The number of a line or a column that the part writes, if it writes one.
pub fn count(part: &[u8]) -> Option<usize>
    ensures { FindsCount part.now result }
{
    match number(part, GREATEST) {
        Some(0) => None,
        Some(number) => Some(number as usize),
        None => None,
    }
}
