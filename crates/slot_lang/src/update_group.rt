//! The statement that groups sets.

ghost use Rattle.std.specs.Prelude.{◌<◌, length, OnOk};
ghost use Rattle.slot_lang.specs.Grammar.{spell_set, tree_of_assignment};
ghost use Rattle.slot_lang.specs.code.Grammar.{ReadsSets, ReadsUpdateGroup};
ghost use Rattle.token_reading.specs.code.Reading.{Reads, EndsAnywhere};

use crate::body::assignment;
use basic_types::Word;
use sqlite_items::Items;
use syntax_trees::Stmt;
use texts::Symbol;
use token_reading::{Cursor, Landmark, ParseFault};

/// What follows `group`.
pub fn update_group(cursor: &mut Cursor) -> Result<Stmt, ParseFault>
    ensures reads { ReadsUpdateGroup cursor.old result cursor.new }
    ensures shorter { OnOk result (length cursor.new < length cursor.old) }
{
    cursor.expect(Symbol::OpenBrace)?;
    let sets = sets(cursor)?;
    Ok(Stmt::Group(sets))
}

/// `set {set} "}"`
fn sets(cursor: &mut Cursor) -> Result<Items<Stmt>, ParseFault>
    ensures reads { ReadsSets cursor.old result cursor.new }
    ensures shorter { OnOk result (length cursor.new < length cursor.old) }
{
    let mut sets = Items::new(cursor.alloc());
    let first = set(cursor)?;
    sets.push(first)?;
    while !cursor.eat(Symbol::CloseBrace) {
        let next = set(cursor)?;
        sets.push(next)?;
    }
    Ok(sets)
}

/// `"set" path "." Name "=" expr ";"`
fn set(cursor: &mut Cursor) -> Result<Stmt, ParseFault>
    ensures reads { Reads spell_set tree_of_assignment EndsAnywhere cursor.old result cursor.new }
    ensures shorter { OnOk result (length cursor.new < length cursor.old) }
{
    if cursor.eat_opening(Landmark::Statement, Word::Set) {
        assignment(cursor)
    } else {
        Err(ParseFault::Syntax)
    }
}
