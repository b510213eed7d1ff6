//! Lists, in parentheses or behind a word.

ghost use Rattle.std.specs.Prelude.{◌≡◌, [], ◌∷◌, ◌<◌, ◌≤◌, List, length, IfOk, OnOk};
ghost use Rattle.token_reading.specs.code.Lists.{EndsAtComma, IsPart, ReadsParts, ReadsList, ReadsAfter};
ghost use Rattle.token_reading.specs.code.Reading.{Reads};
ghost use Rattle.texts.specs.declared.token.Token.{Token};

use crate::cursor::Cursor;
use crate::fault::ParseFault;
use basic_types::Word;
use sqlite_items::Items;
use std::alloc::AllocError;
use texts::{Symbol, Token};

/// A rule of a grammar by which the parts of a list, or the objects at the ends of a connection, are read.
pub trait Part {
    /// What a part stands for.
    type Tree: Drop;

    /// A way to read tokens by the rule.
    ghost Reading: { Type 0 };

    /// Its tokens, and what follows them.
    ghost spell: { Reading → List Token → List Token };

    /// The tree that it stands for.
    ghost tree: { Reading → Self.Tree };

    /// What may follow it.
    ghost Ends: { List Token → Type 0 };

    /// Takes the part that has to come next.
    ///
    /// `Syntax` where the tokens begin with none, and only there; `Memory` where a growth of memory was refused.
    fn read(cursor: &mut Cursor) -> Result<Self::Tree, ParseFault>
        ensures reads { Reads spell tree Ends cursor.old result cursor.new }
        ensures shorter { OnOk result (length cursor.new < length cursor.old) };
}

/// A list has room for so many parts once there is a second one. Most have no more.
const MOSTLY: usize = 2;

/// `part {"," part}`
///
/// `Syntax` where the tokens begin with no such list, and only there; `Memory` where a growth of memory was refused.
///
/// A part may end at a comma: that is to be shown.
fn parts<P: Part>(cursor: &mut Cursor) -> Result<Items<P::Tree>, ParseFault>
    requires { EndsAtComma P.Ends }
    ensures reads { ReadsParts P.spell P.tree P.Ends cursor.old result cursor.new }
    ensures shorter { OnOk result (length cursor.new < length cursor.old) }
{
    let first = P::read(cursor)?;
    let mut parts = begun(cursor, first)?;
    while cursor.eat(Symbol::Comma) {
        let part = P::read(cursor)?;
        parts.push(part)?;
    }
    Ok(parts)
}

/// The list of the first part, behind which the cursor is: it has room for more where a comma follows.
#[inline(always)]
fn begun<T: Drop>(cursor: &Cursor, first: T) -> Result<Items<T>, AllocError>
    ensures { IfOk result (λ parts. parts ≡ first ∷ []) }
{
    let room = match cursor.rest().first() {
        Some(Token::Symbol(Symbol::Comma)) => MOSTLY,
        _ => 1,
    };
    let mut parts = Items::from_vec(Vec::with_capacity(cursor.alloc(), room)?);
    parts.push(first)?;
    Ok(parts)
}

/// `"(" [part {"," part}] ")"`
///
/// `Syntax` where the tokens begin with no such list, and only there; `Memory` where a growth of memory was refused.
///
/// A part may end at a comma and at `)`, and doesn't begin with `)`: that is to be shown.
pub fn list<P: Part>(cursor: &mut Cursor) -> Result<Items<P::Tree>, ParseFault>
    requires { IsPart P.spell P.Ends }
    ensures reads { ReadsList P.spell P.tree cursor.old result cursor.new }
    ensures shorter { OnOk result (length cursor.new < length cursor.old) }
{
    cursor.expect(Symbol::Open)?;
    if cursor.eat(Symbol::Close) {
        return Ok(Items::new(cursor.alloc()));
    }
    let parts = parts::<P>(cursor)?;
    cursor.expect(Symbol::Close)?;
    Ok(parts)
}

/// `[word part {"," part}]`: a list without parentheses, empty where the word doesn't come next.
///
/// `Syntax` where no part follows the word or a comma, and only there; `Memory` where a growth of memory was refused.
///
/// A part may end at a comma: that is to be shown.
pub fn list_after<P: Part>(cursor: &mut Cursor, word: Word) -> Result<Items<P::Tree>, ParseFault>
    requires { EndsAtComma P.Ends }
    ensures reads { ReadsAfter word P.spell P.tree P.Ends cursor.old result cursor.new }
    ensures no_longer { OnOk result (length cursor.new ≤ length cursor.old) }
{
    if cursor.eat_word(word) {
        parts::<P>(cursor)
    } else {
        Ok(Items::new(cursor.alloc()))
    }
}
