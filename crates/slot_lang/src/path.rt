//! Paths.

ghost use Rattle.std.specs.Prelude.{◌≡◌, ◌<◌, ◌≤◌, length, OnOk};
ghost use Rattle.slot_lang.specs.Expressions.{spell_root, spell_names, spell_path};
ghost use Rattle.slot_lang.specs.code.Expressions.{EndsFactor};
ghost use Rattle.slot_lang.specs.Grammar.{spell_target};
ghost use Rattle.token_reading.specs.code.Reading.{Reads, EndsAnywhere};
ghost use Rattle.syntax_trees.specs.declared.syntax.Path.{Path};

use basic_types::{Name, Word};
use sqlite_items::Items;
use syntax_trees::{Path, Root};
use texts::Symbol;
use token_reading::{Cursor, ParseFault, Part};

/// `("this" | Name) {"." Name}`
///
/// `Syntax` where the tokens begin with no path, and only there; `Memory` where a growth of memory was refused.
pub fn path(cursor: &mut Cursor) -> Result<Path, ParseFault>
    ensures reads { Reads spell_path (λ path. path) EndsFactor cursor.old result cursor.new }
    ensures shorter { OnOk result (length cursor.new < length cursor.old) }
{
    let root = root(cursor)?;
    let properties = names(cursor)?;
    Ok(Path { root, properties })
}

/// `"this" | Name`
fn root(cursor: &mut Cursor) -> Result<Root, ParseFault>
    ensures reads { Reads spell_root (λ root. root) EndsAnywhere cursor.old result cursor.new }
    ensures shorter { OnOk result (length cursor.new < length cursor.old) }
{
    if cursor.eat_word(Word::This) {
        return Ok(Root::This);
    }
    let name = cursor.name()?;
    Ok(Root::Name(name))
}

/// `{"." Name}`
pub fn names(cursor: &mut Cursor) -> Result<Items<Name>, ParseFault>
    ensures reads { Reads spell_names (λ names. names) EndsFactor cursor.old result cursor.new }
    ensures no_longer { OnOk result (length cursor.new ≤ length cursor.old) }
{
    let mut names = Items::new(cursor.alloc());
    while cursor.eat(Symbol::Dot) {
        let name = cursor.name()?;
        names.push(name)?;
    }
    Ok(names)
}

/// `path "." Name`: a path with a name at its end, which leads to a member of what the path leads to.
pub fn target(cursor: &mut Cursor) -> Result<(Path, Name), ParseFault>
    ensures reads { Reads spell_target (λ target. target) EndsFactor cursor.old result cursor.new }
    ensures shorter { OnOk result (length cursor.new < length cursor.old) }
{
    let path = path(cursor)?;
    let Path {
        root,
        mut properties,
    } = path;
    match properties.pop() {
        Some(member) => Ok((Path { root, properties }, member)),
        None => Err(ParseFault::Syntax),
    }
}

/// A path, as a part of a list or an end of a connection.
pub struct PathPart;

impl Part for PathPart {
    type Tree = Path;

    ghost Reading = { Path };

    ghost spell = { spell_path };

    ghost tree = { λ path. path };

    ghost Ends = { EndsFactor };

    fn read(cursor: &mut Cursor) -> Result<Path, ParseFault> {
        path(cursor)
    }
}
