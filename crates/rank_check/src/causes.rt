//! What of a program or a certificate breaks a condition.

ghost use Rattle.std.specs.Prelude.{◌≡◌};
ghost use Rattle.rank_check.specs.Checks.{no_of};

use crate::no::No;
use std::alloc::AllocError;
use type_check::Spot;

/// A node, by its number, and the place of its line among the certificate's; both from 0.
#[derive(Clone, Copy, Debug, PartialEq, Eq)]
pub struct NodeLine {
    /// The node.
    pub node: usize,
    /// The line.
    pub line: usize,
}

/// What is too much in a certificate. Lines are given by their places among the certificate's, from 0.
#[derive(Clone, Copy, Debug, PartialEq, Eq)]
pub enum Extra {
    /// This line is for nothing that is a node.
    Unknown(usize),
    /// These two lines are for one node.
    Twice(usize, usize),
    /// In the set of this line, the item at the second place, from 0, names a class that isn't there.
    Class(usize, usize),
}

/// An edge along which the rank doesn't fall.
#[derive(Clone, Copy, Debug, PartialEq, Eq)]
pub struct Rise {
    /// What it leads from.
    pub from: NodeLine,
    /// What it leads to.
    pub to: NodeLine,
}

/// What is wrong with a destroy set. Classes are given by their numbers.
#[derive(Clone, Copy, Debug, PartialEq, Eq)]
pub enum Mistake {
    /// That of this destruction lacks a class of its closure.
    Unclosed(NodeLine, usize),
    /// That of this slot or native holds its own class.
    Own(NodeLine),
    /// That of the first node lacks a class of the set of the second, to which it leads.
    Lost(NodeLine, NodeLine, usize),
}

/// What is wrong with a bound.
#[derive(Clone, Copy, Debug, PartialEq, Eq)]
pub enum Loose {
    /// It is over 256.
    TooGreat,
    /// It isn't above the rank in the line at this place, from 0.
    NotAbove(usize),
}

/// What breaks the first condition of a valid certificate that doesn't hold.
#[derive(Clone, Copy, Debug, PartialEq, Eq)]
pub enum Cause {
    /// The method of the wire at this place, from 0, doesn't fit its signal; those before it do.
    Wire(usize),
    /// This literal, body or binding isn't typed; those before it are.
    BodyType(Spot),
    /// The node of this number has no line.
    Missing(usize),
    /// A line or a class of a set is out of place.
    Extra(Extra),
    /// A rank doesn't fall along an edge.
    Edge(Rise),
    /// A set lacks a class, or holds that of its slot.
    Destroys(Mistake),
    /// A rank isn't below the bound, or the bound is too great.
    Bound(Loose),
    /// A growth of memory was refused.
    Memory,
}

impl From<AllocError> for Cause {
    ghost use Rattle.std.specs.Prelude.{◌≡◌};
    ghost use Rattle.rank_check.specs.declared.causes.Cause.TheVariants.{Memory};

    ghost from_gives = { λ _ cause. cause ≡ Memory };

    fn from(_: AllocError) -> Cause {
        Cause::Memory
    }
}

impl Cause {
    /// The condition that it breaks.
    pub fn no(self) -> No
        ensures { result ≡ no_of self }
    {
        match self {
            Cause::Wire(_) => No::Wire,
            Cause::BodyType(_) => No::BodyType,
            Cause::Missing(_) => No::Missing,
            Cause::Extra(_) => No::Extra,
            Cause::Edge(_) => No::Edge,
            Cause::Destroys(_) => No::Destroys,
            Cause::Bound(_) => No::Bound,
            Cause::Memory => No::Memory,
        }
    }
}
