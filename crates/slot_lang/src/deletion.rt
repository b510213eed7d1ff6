//! The statements that destroy objects.

ghost use Rattle.std.specs.Prelude.{◌<◌, length, OnOk};
ghost use Rattle.slot_lang.specs.code.Grammar.{ReadsDeletion, ReadsLaterDeletion};
ghost use Rattle.slot_lang.specs.Grammar.{spell_object};
ghost use Rattle.token_reading.specs.code.Reading.{Reads, EndsAnywhere};

use crate::path::path;
use syntax_trees::{Path, Stmt};
use texts::Symbol;
use token_reading::{Cursor, ParseFault};

/// What follows `delete`.
pub fn deletion(cursor: &mut Cursor) -> Result<Stmt, ParseFault>
    ensures reads { ReadsDeletion cursor.old result cursor.new }
    ensures shorter { OnOk result (length cursor.new < length cursor.old) }
{
    let path = object(cursor)?;
    Ok(Stmt::Delete(path))
}

/// What follows `later`.
pub fn later_deletion(cursor: &mut Cursor) -> Result<Stmt, ParseFault>
    ensures reads { ReadsLaterDeletion cursor.old result cursor.new }
    ensures shorter { OnOk result (length cursor.new < length cursor.old) }
{
    let path = object(cursor)?;
    Ok(Stmt::Later(path))
}

/// `path ";"`
fn object(cursor: &mut Cursor) -> Result<Path, ParseFault>
    ensures reads { Reads spell_object (λ path. path) EndsAnywhere cursor.old result cursor.new }
    ensures shorter { OnOk result (length cursor.new < length cursor.old) }
{
    let path = path(cursor)?;
    cursor.expect(Symbol::Semicolon)?;
    Ok(path)
}
