//! The readers of connections, as bodies and scripts name them.

ghost use Rattle.std.specs.Prelude.{◌<◌, ◌≤◌, length, OnOk};
ghost use Rattle.token_reading.specs.code.Connections.{EndsAtSig, TakesSeparator, EatsFlag, ReadsEnd, ReadsEnds, ReadsConnectionType};

use crate::cursor::Cursor;
use crate::fault::ParseFault;
use crate::lists::Part;
use basic_types::{Shared, Sig, Word};
use syntax_trees::{ConnectionType, Endpoints};
use texts::Symbol;

/// `object separator sig separator object separator sig`: the two ends of a connection, whose objects are read as parts
/// of type P.
///
/// `Syntax` where the tokens begin with nothing like it, and only there; `Memory` where a growth of memory was refused.
///
/// An object may end in front of the separator and a signature: that is to be shown.
pub fn both_ends<P: Part>(
    cursor: &mut Cursor,
    separator: Option<Symbol>,
) -> Result<Endpoints<P::Tree>, ParseFault>
    requires { EndsAtSig P.Ends separator }
    ensures reads { ReadsEnds P.spell P.tree separator cursor.old result cursor.new }
    ensures shorter { OnOk result (length cursor.new < length cursor.old) }
{
    let (sender, signal) = end::<P>(cursor, separator)?;
    cursor.separator(separator)?;
    let (receiver, method) = end::<P>(cursor, separator)?;
    Ok(Endpoints {
        sender,
        signal,
        receiver,
        method,
    })
}

/// `object separator sig`
fn end<P: Part>(
    cursor: &mut Cursor,
    separator: Option<Symbol>,
) -> Result<(P::Tree, Shared<Sig>), ParseFault>
    requires { EndsAtSig P.Ends separator }
    ensures reads { ReadsEnd P.spell P.tree separator cursor.old result cursor.new }
    ensures shorter { OnOk result (length cursor.new < length cursor.old) }
{
    let object = P::read(cursor)?;
    cursor.separator(separator)?;
    let sig = cursor.sig()?;
    let shared = Shared::new(cursor.alloc(), sig)?;
    Ok((object, shared))
}

impl<'a> Cursor<'a> {
    /// `kind [separator "unique"] [separator "single"]`
    ///
    /// `Syntax` where the tokens begin with no kind, and only there.
    pub fn connection_type(
        &mut self,
        separator: Option<Symbol>,
    ) -> Result<ConnectionType, ParseFault>
        ensures reads { ReadsConnectionType separator self.old result self.new }
        ensures shorter { OnOk result (length self.new < length self.old) }
    {
        let kind = self.connection_kind()?;
        let unique = self.eat_flag(separator, Word::Unique);
        let single = self.eat_flag(separator, Word::Single);
        Ok(ConnectionType {
            kind,
            unique,
            single,
        })
    }

    /// Takes the separator and the word, if they come next, and says whether it did.
    fn eat_flag(&mut self, separator: Option<Symbol>, word: Word) -> bool
        ensures found { EatsFlag separator word self.old result self.new }
        ensures no_longer { length self.new ≤ length self.old }
    {
        let before = self.rest();
        let found = self.separator(separator).is_ok() && self.eat_word(word);
        if !found {
            self.rewind(before);
        }
        found
    }

    /// Takes the separator, if there is one.
    fn separator(&mut self, separator: Option<Symbol>) -> Result<(), ParseFault>
        ensures found { TakesSeparator separator self.old result self.new }
        ensures no_longer { OnOk result (length self.new ≤ length self.old) }
    {
        match separator {
            Some(symbol) => self.expect(symbol),
            None => Ok(()),
        }
    }
}
