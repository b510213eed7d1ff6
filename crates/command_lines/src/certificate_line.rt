//! The text of certificates.

ghost use Rattle.std.specs.Prelude.{◌++◌, codes, decimal};
ghost use Rattle.std.specs.List.{flat_map};
ghost use Rattle.basic_types.specs.Spelling.{text_of_sig};
ghost use Rattle.certificate_lang.specs.Texts.{node_text, item_text, listed_text, node_line};
ghost use Rattle.command_lines.specs.Lines.{member_text};
ghost use Rattle.command_lines.specs.Sent.{Puts};

use crate::output::Output;
use basic_types::{Name, Sig};
use certificate_lang::{Line, MemberName, NodeName, SetItem};
use std::io::Write;

impl<W: Write> Output<'_, W> {
    /// Adds what a certificate with this bound begins with; the lines of its nodes come behind it.
    pub fn certificate_head(&mut self, bound: u32)
        ensures { Puts W.contents self.old self.new (codes "certificate 2\n" ++ (codes "bound " ++ decimal bound ++ codes "\n")) }
    {
        self.put_word(b"certificate 2\n");
        self.numbered(b"bound ", bound);
    }

    /// Adds the line of a node.
    pub fn node_line(&mut self, line: &Line)
        ensures { Puts W.contents self.old self.new (node_line line.now) }
    {
        self.node(&line.node);
        self.rank(line.rank);
        self.destroyed(line.destroys.as_slice());
        self.put_byte(b'\n');
    }

    /// Adds a rank, a blank in front of it.
    fn rank(&mut self, rank: u32)
        ensures { Puts W.contents self.old self.new (codes " " ++ decimal rank) }
    {
        self.put_byte(b' ');
        self.number(rank);
    }

    /// Adds a node.
    pub fn node(&mut self, node: &NodeName)
        ensures { Puts W.contents self.old self.new (node_text node.now) }
    {
        match &node.member {
            MemberName::Method(sig) => self.method_of(&node.class, sig),
            MemberName::Property(name) => self.member(&node.class, name),
            MemberName::Destruction => self.tilde_name(&node.class),
        }
    }

    /// Adds `~C`.
    fn tilde_name(&mut self, class: &Name)
        ensures { Puts W.contents self.old self.new (codes "~" ++ class.now) }
    {
        self.put_byte(b'~');
        self.name(class);
    }

    /// Adds `C.m(types)`.
    fn method_of(&mut self, class: &Name, sig: &Sig)
        ensures { Puts W.contents self.old self.new (member_text class.now (text_of_sig sig.now)) }
    {
        self.name(class);
        self.put_byte(b'.');
        self.sig(sig);
    }

    /// Adds the items of a destroy set, a blank in front of each.
    fn destroyed(&mut self, items: &[SetItem])
        ensures { Puts W.contents self.old self.new (flat_map listed_text items.now) }
    {
        for item in items {
            self.put_byte(b' ');
            self.set_item(item);
        }
    }

    /// Adds an item of a destroy set.
    fn set_item(&mut self, item: &SetItem)
        ensures { Puts W.contents self.old self.new (item_text item.now) }
    {
        match item {
            SetItem::Class(name) => self.name(name),
            SetItem::Closure(name) => self.tilde_name(name),
        }
    }
}
