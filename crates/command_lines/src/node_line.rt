//! The text of nodes of a program.

ghost use Rattle.std.specs.Prelude.{option_copied};
ghost use Rattle.command_lines.specs.Lines.{member_text};
ghost use Rattle.command_lines.specs.NodeLines.{method_text, name_text, text_in, text_of_node, text_of_nodes};
ghost use Rattle.command_lines.specs.Sent.{Puts};

use crate::output::Output;
use basic_types::Name;
use effect_scan::{Member, Node};
use meta_model::{Meta, MetaMethod, MetaObject, MetaProperty};
use std::io::Write;

impl<W: Write> Output<'_, W> {
    /// Adds nodes of a program, a blank in front of each.
    pub fn nodes(&mut self, meta: &Meta, nodes: &[Node])
        ensures { Puts W.contents self.old self.new (text_of_nodes meta.now nodes.now) }
    {
        for node in nodes {
            self.put_byte(b' ');
            self.node_of(meta, *node);
        }
    }

    /// Adds a node of a program, and nothing where its class isn't there.
    pub fn node_of(&mut self, meta: &Meta, node: Node)
        ensures { Puts W.contents self.old self.new (text_of_node meta.now node) }
    {
        let Some(class) = meta.object(node.class) else {
            return;
        };
        self.node_in(class, node.member);
    }

    /// Adds a member of a class as a node.
    fn node_in(&mut self, class: &MetaObject, member: Member)
        ensures { Puts W.contents self.old self.new (text_in class.now member) }
    {
        match member {
            Member::Method(number) => {
                self.method_in(&class.name, class.method(number));
            }
            Member::Property(number) => {
                self.property_in(&class.name, class.property(number));
            }
            Member::Destruction => {
                self.put_byte(b'~');
                self.name(&class.name);
            }
        }
    }

    /// Adds `C.m(types)`.
    fn method_in(&mut self, class: &Name, method: Option<&MetaMethod>)
        ensures { Puts W.contents self.old self.new (member_text class.now (method_text (option_copied method.entry))) }
    {
        self.name(class);
        self.put_byte(b'.');
        if let Some(method) = method {
            self.sig(&method.sig);
        }
    }

    /// Adds `C.p`.
    fn property_in(&mut self, class: &Name, property: Option<&MetaProperty>)
        ensures { Puts W.contents self.old self.new (member_text class.now (name_text (option_copied property.entry))) }
    {
        self.name(class);
        self.put_byte(b'.');
        if let Some(property) = property {
            self.name(&property.name);
        }
    }
}
