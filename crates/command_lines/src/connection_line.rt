//! The text of connections that statements make and remove.

ghost use Rattle.std.specs.Prelude.{◌≡◌, ◌++◌, codes};
ghost use Rattle.command_lines.specs.Lines.{kind_text, given_text, type_text, end_text, ends_text};
ghost use Rattle.command_lines.specs.Sent.{Puts};

use crate::output::Output;
use basic_types::{Kind, Name, Sig};
use std::io::Write;
use syntax_trees::{ConnectionType, Endpoints};

impl<W: Write> Output<'_, W> {
    /// Adds that a connection is made.
    pub fn connected(&mut self, ends: &Endpoints<Name>, how: ConnectionType)
        ensures { Puts W.contents self.old self.new (codes "connect " ++ (ends_text ends.now ++ (codes " " ++ type_text how))) }
    {
        self.put_word(b"connect ");
        self.ends(ends);
        self.put_byte(b' ');
        self.connection_type(how);
    }

    /// Adds that the connections between two ends are removed.
    pub fn disconnected(&mut self, ends: &Endpoints<Name>)
        ensures { Puts W.contents self.old self.new (codes "disconnect " ++ ends_text ends.now) }
    {
        self.put_word(b"disconnect ");
        self.ends(ends);
    }

    /// Adds the names and signatures at two ends.
    fn ends(&mut self, ends: &Endpoints<Name>)
        ensures { Puts W.contents self.old self.new (ends_text ends.now) }
    {
        self.end(&ends.sender, &ends.signal);
        self.put_byte(b' ');
        self.end(&ends.receiver, &ends.method);
    }

    /// Adds the name of an object and the signature of its method.
    fn end(&mut self, object: &Name, sig: &Sig)
        ensures { Puts W.contents self.old self.new (end_text object.now sig.now) }
    {
        self.name(object);
        self.put_byte(b' ');
        self.sig(sig);
    }

    /// Adds a connection's kind, and what else is given of how it is made.
    fn connection_type(&mut self, how: ConnectionType)
        ensures { Puts W.contents self.old self.new (type_text how) }
    {
        self.put(kind_text(how.kind));
        self.given(how.unique, b"unique");
        self.given(how.single, b"single");
    }

    /// Adds a word after a blank, where it is given.
    pub fn given(&mut self, given: bool, word: &[u8])
        ensures { Puts W.contents self.old self.new (given_text given word.now) }
    {
        if given {
            self.put_byte(b' ');
            self.put(word);
        }
    }
}

/// The word of a kind.
fn kind_text(kind: Kind) -> &'static [u8]
    ensures { result.now ≡ kind_text kind }
{
    match kind {
        Kind::Auto => b"auto",
        Kind::Direct => b"direct",
        Kind::Queued => b"queued",
    }
}
