//! A certificate beside its program, and what breaks a condition.

use crate::edge::push_edge;
use crate::names::{class_text, node_text, text_of};
use crate::node_name::node_name_text;
use crate::rows::{cause_place, line_place};
use crate::source::ProgramSource;
use effect_scan::{Node, Numbering};
use rank_check::{
    Cause, Certificate, Extra, Line, Loose, MemberName, Mistake, NodeLine, NodeName, Rise, SetItem,
};
use std::alloc::AllocError;

/// A certificate and its text, beside the nodes of a program.
#[derive(Clone, Copy)]
struct Compared<'s> {
    /// The program.
    source: ProgramSource<'s>,
    /// Its nodes, in their order.
    nodes: &'s [Node],
    /// The text of the certificate.
    text: &'s [u8],
    /// What it says.
    certificate: &'s Certificate,
}

/// What of the program or the certificate breaks a condition, for a person, in whole lines; the certificate has this text.
/// The error is that memory was refused, which may be what the cause says.
pub fn cause_text(
    source: ProgramSource<'_>,
    text: &[u8],
    certificate: &Certificate,
    cause: Cause,
) -> Result<String, AllocError> {
    let numbering = Numbering::of(source.alloc, source.meta.classes())?;
    let compared = Compared {
        source,
        nodes: numbering.nodes(),
        text,
        certificate,
    };
    compared.sentence_of(cause)
}

impl<'s> Compared<'s> {
    /// What breaks the condition.
    fn sentence_of(&self, cause: Cause) -> Result<String, AllocError> {
        match cause {
            // Those of the program are findings of their own.
            Cause::Wire(_) | Cause::BodyType(_) => Ok(String::new(self.source.alloc)),
            Cause::Missing(node) => self.missing(node),
            Cause::Extra(extra) => self.extra(extra),
            Cause::Edge(rise) => self.rise(rise),
            Cause::Destroys(mistake) => self.mistake(mistake),
            Cause::Bound(Loose::TooGreat) => self.too_great(cause),
            Cause::Bound(Loose::NotAbove(place)) => self.not_above(place),
            Cause::Memory => Err(AllocError),
        }
    }

    /// The line of the certificate at this place.
    fn line(&self, place: usize) -> Option<&'s Line> {
        self.certificate.lines.as_slice().get(place)
    }

    /// The node that it is for.
    fn named(&self, place: usize) -> Result<String, AllocError> {
        match self.line(place) {
            Some(line) => node_name_text(self.source.alloc, &line.node),
            None => Ok(String::new(self.source.alloc)),
        }
    }

    /// The rank that it gives.
    fn rank(&self, place: usize) -> u32 {
        match self.line(place) {
            Some(line) => line.rank,
            None => 0,
        }
    }

    /// The number of the line of the certificate's text in which it is.
    fn row(&self, place: usize) -> Result<usize, AllocError> {
        Ok(line_place(self.source.alloc, self.text, place)?.line)
    }

    /// A node of the program, as the certificate names it.
    fn node(&self, number: usize) -> Result<String, AllocError> {
        match self.nodes.get(number) {
            Some(node) => node_text(self.source.alloc, self.source.meta, *node),
            None => Ok(String::new(self.source.alloc)),
        }
    }

    /// The node of this number has no line.
    fn missing(&self, number: usize) -> Result<String, AllocError> {
        let node = self.node(number)?;
        format!(in self.source.alloc;
            "no line of the certificate is for `{node}`\nhelp: make the certificate anew with `certify`, after each change of the program\n"
        )
    }

    /// A line or a class of a set is too much.
    fn extra(&self, extra: Extra) -> Result<String, AllocError> {
        match extra {
            Extra::Unknown(place) => self.unknown(place),
            Extra::Twice(place, other) => self.twice(place, other),
            Extra::Class(place, item) => self.class_missing(place, item),
        }
    }

    /// The line at this place is for nothing.
    fn unknown(&self, place: usize) -> Result<String, AllocError> {
        let row = self.row(place)?;
        let node = self.named(place)?;
        let why = match self.line(place) {
            Some(line) => self.why_unknown(&line.node),
            None => "",
        };
        format!(in self.source.alloc;
            "line {row} of the certificate is for `{node}`: {why}\nhelp: make the certificate anew with `certify`, after each change of the program\n"
        )
    }

    /// Why no node has this name.
    fn why_unknown(&self, name: &NodeName) -> &'static str {
        if self.source.meta.class(&name.class).is_none() {
            return "there is no such class";
        }
        match &name.member {
            MemberName::Method(sig)
                if sig.name.bytes() == b"destroyed".as_slice() && sig.types.len() == 0 => {
                "`destroyed(QObject*)` stands for it"
            }
            _ => "the class has no such member",
        }
    }

    /// The lines at these places are for the same node.
    fn twice(&self, place: usize, other: usize) -> Result<String, AllocError> {
        let row = self.row(place)?;
        let other = self.row(other)?;
        let node = self.named(place)?;
        format!(in self.source.alloc;
            "lines {row} and {other} of the certificate are both for `{node}`\nhelp: leave one of them out\n"
        )
    }

    /// The class that this item of the line's set names isn't there.
    fn class_missing(&self, place: usize, item: usize) -> Result<String, AllocError> {
        let row = self.row(place)?;
        let class = self.class_in(place, item)?;
        format!(in self.source.alloc;
            "line {row} of the certificate has the class `{class}`, which isn't there\nhelp: make the certificate anew with `certify`, after each change of the program\n"
        )
    }

    /// The class that this item of the line's set names.
    fn class_in(&self, place: usize, item: usize) -> Result<String, AllocError> {
        if let Some(line) = self.line(place) {
            if let Some(SetItem::Class(name) | SetItem::Closure(name)) = line.destroys.get(item) {
                return text_of(self.source.alloc, name.bytes());
            }
        }
        Ok(String::new(self.source.alloc))
    }

    /// Along an edge the rank doesn't fall.
    fn rise(&self, rise: Rise) -> Result<String, AllocError> {
        let mut text = String::new(self.source.alloc);
        self.push_rank(&mut text, rise.from, " of the certificate gives")?;
        text.push_str(", and ")?;
        self.push_rank(&mut text, rise.to, " gives")?;
        text.push_str(": a rank has to be above those of what its member leads to\n")?;
        self.push_edge(&mut text, rise.from.node, rise.to.node)?;
        text.push_str(
            "help: make the certificate anew with `certify`; where members lead back to themselves, it names them, and a `queued` wire in the place of a direct one breaks that chain\n",
        )?;
        Ok(text)
    }

    /// Adds the rank that the node's line gives to it.
    fn push_rank(&self, text: &mut String, at: NodeLine, gives: &str) -> Result<(), AllocError> {
        let row = self.row(at.line)?;
        let node = self.node(at.node)?;
        let rank = self.rank(at.line);
        write!(text, "line {row}{gives} `{node}` the rank {rank}")
    }

    /// Adds what draws the edge between the nodes of these numbers.
    fn push_edge(&self, text: &mut String, from: usize, to: usize) -> Result<(), AllocError> {
        let Some(from) = self.nodes.get(from) else {
            return Ok(());
        };
        if let Some(to) = self.nodes.get(to) {
            push_edge(text, self.source, *from, *to)?;
        }
        Ok(())
    }

    /// A set isn't as it has to be.
    fn mistake(&self, mistake: Mistake) -> Result<String, AllocError> {
        match mistake {
            Mistake::Unclosed(at, class) => self.unclosed(at, class),
            Mistake::Own(at) => self.own(at),
            Mistake::Lost(from, to, class) => self.lost(from, to, class),
        }
    }

    /// The set of a destruction lacks a class.
    fn unclosed(&self, at: NodeLine, class: usize) -> Result<String, AllocError> {
        let row = self.row(at.line)?;
        let node = self.node(at.node)?;
        let class = class_text(self.source.alloc, self.source.meta, class)?;
        format!(in self.source.alloc;
            "line {row} of the certificate: the set of `{node}` lacks `{class}`, and with it an object of that class may be deleted\nhelp: make the certificate anew with `certify`\n"
        )
    }

    /// The set of a slot or native holds its own class.
    fn own(&self, at: NodeLine) -> Result<String, AllocError> {
        let row = self.row(at.line)?;
        let node = self.node(at.node)?;
        format!(in self.source.alloc;
            "line {row} of the certificate: the set of `{node}` holds its own class, so an object could die while this body of its own runs\nhelp: make the certificate anew with `certify`; where the slot does lead to a deletion, it names the chain, and `later` in the place of `delete` puts the deletion off\n"
        )
    }

    /// A set lacks a class of the set of another node.
    fn lost(&self, from: NodeLine, to: NodeLine, class: usize) -> Result<String, AllocError> {
        let row = self.row(from.line)?;
        let node = self.node(from.node)?;
        let class = class_text(self.source.alloc, self.source.meta, class)?;
        let other = self.row(to.line)?;
        let mut text = format!(in self.source.alloc;
            "line {row} of the certificate: the set of `{node}` lacks `{class}`, which that in line {other} has\n"
        )?;
        self.push_edge(&mut text, from.node, to.node)?;
        text.push_str("help: make the certificate anew with `certify`\n")?;
        Ok(text)
    }

    /// The bound is over 256.
    fn too_great(&self, cause: Cause) -> Result<String, AllocError> {
        let bound = self.certificate.bound;
        let row = cause_place(self.source.alloc, self.text, cause)?.line;
        format!(in self.source.alloc;
            "line {row} of the certificate: the bound {bound} is over 256\nhelp: make the certificate anew with `certify`, which finds the least bound\n"
        )
    }

    /// The bound isn't above the rank in the line at this place.
    fn not_above(&self, place: usize) -> Result<String, AllocError> {
        let bound = self.certificate.bound;
        let rank = self.rank(place);
        let row = self.row(place)?;
        let node = self.named(place)?;
        format!(in self.source.alloc;
            "line {row} of the certificate gives `{node}` the rank {rank}, and the bound is {bound}: it has to be above all ranks\nhelp: make the certificate anew with `certify`\n"
        )
    }
}
