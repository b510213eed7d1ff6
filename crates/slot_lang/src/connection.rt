//! The statements that connect and disconnect.

ghost use Rattle.std.specs.Prelude.{◌<◌, length, OnOk};
ghost use Rattle.slot_lang.specs.code.Grammar.{ReadsConnection, ReadsDisconnection};
ghost use Rattle.slot_lang.specs.Grammar.{spell_how};
ghost use Rattle.token_reading.specs.code.Reading.{Reads, EndsAnywhere};

use crate::path::PathPart;
use syntax_trees::{ConnectionType, Stmt};
use texts::Symbol;
use token_reading::{Cursor, ParseFault, both_ends};

/// What separates the parts of a connection.
const SEPARATOR: Option<Symbol> = Some(Symbol::Comma);

/// What follows `connect`.
pub fn connection(cursor: &mut Cursor) -> Result<Stmt, ParseFault>
    ensures reads { ReadsConnection cursor.old result cursor.new }
    ensures shorter { OnOk result (length cursor.new < length cursor.old) }
{
    let ends = both_ends::<PathPart>(cursor, SEPARATOR)?;
    let how = how(cursor)?;
    Ok(Stmt::Connect(ends, how))
}

/// What follows `disconnect`.
pub fn disconnection(cursor: &mut Cursor) -> Result<Stmt, ParseFault>
    ensures reads { ReadsDisconnection cursor.old result cursor.new }
    ensures shorter { OnOk result (length cursor.new < length cursor.old) }
{
    let ends = both_ends::<PathPart>(cursor, SEPARATOR)?;
    cursor.expect(Symbol::Semicolon)?;
    Ok(Stmt::Disconnect(ends))
}

/// `"," kind ["," "unique"] ["," "single"] ";"`
fn how(cursor: &mut Cursor) -> Result<ConnectionType, ParseFault>
    ensures reads { Reads spell_how (λ how. how) EndsAnywhere cursor.old result cursor.new }
    ensures shorter { OnOk result (length cursor.new < length cursor.old) }
{
    cursor.expect(Symbol::Comma)?;
    let how = cursor.connection_type(SEPARATOR)?;
    cursor.expect(Symbol::Semicolon)?;
    Ok(how)
}
