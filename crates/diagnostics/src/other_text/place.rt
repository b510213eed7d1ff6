//! A place of another text.

ghost use Rattle.std.specs.Prelude.{IfOk};
ghost use Rattle.diagnostics.specs.code.Parting.{FindsPlace};

use crate::other_text::parts::{count, parts};
use sqlite_items::Items;
use std::alloc::{AllocError, Global};

/// What a line and column of the program stands for in another text. Lines and columns are counted from 1.
#[derive(Drop)]
pub struct OtherPlace<'t> {
    /// The line in the program.
    pub line: usize,
    /// The column there.
    pub column: usize,
    /// The file of the other text, which has a name of any bytes but tabs and newlines.
    pub file: &'t [u8],
    /// The line in that file.
    pub other_line: usize,
    /// The column there.
    pub other_column: usize,
    /// The words that stand there; there may be none.
    pub words: &'t [u8],
    /// Under which conditions they do what they do, the outermost first.
    pub conditions: Items<&'t [u8]>,
}

/// The place that the line is, if it is one. Its error is that memory was refused.
pub fn place_of<'t>(alloc: Global, line: &'t [u8]) -> Result<Option<OtherPlace<'t>>, AllocError>
    ensures { IfOk result (FindsPlace line.now) }
{
    let parts = parts(alloc, line)?;
    let [
        line_part,
        column_part,
        file,
        other_line_part,
        other_column_part,
        words,
        conditions @ ..,
    ] = parts.as_slice()
    else {
        return Ok(None);
    };
    let Some(line) = count(line_part) else {
        return Ok(None);
    };
    let Some(column) = count(column_part) else {
        return Ok(None);
    };
    let Some(other_line) = count(other_line_part) else {
        return Ok(None);
    };
    let Some(other_column) = count(other_column_part) else {
        return Ok(None);
    };
    if file.is_empty() {
        return Ok(None);
    }
    let conditions = Items::from_slice(alloc, conditions)?;
    Ok(Some(OtherPlace {
        line,
        column,
        file,
        other_line,
        other_column,
        words,
        conditions,
    }))
}
