//! Certificates: what they say of each node of a program.

use basic_types::{Name, Sig};
use sqlite_items::Items;

/// A member of a class, as a certificate names it.
#[derive(Drop)]
pub enum MemberName {
    /// `m(T, ..)`: a method, by its signature in normal form.
    Method(Sig),
    /// `p`: a property.
    Property(Name),
    /// `~`, in front of the class: the destruction of its objects.
    Destruction,
}

/// A node, as a certificate names it: `C.m(T, ..)`, `C.p` or `~C`.
pub struct NodeName {
    /// The class.
    pub class: Name,
    /// The member.
    pub member: MemberName,
}

impl Drop for NodeName {
    fn drop(self) {
        let NodeName {
            class: _,
            member: _,
        } = self;
    }
}

/// An item of a destroy set, as a certificate names it.
#[derive(Drop)]
pub enum SetItem {
    /// `C`: the class of this name.
    Class(Name),
    /// `~C`: the closure of the class of this name, that is the classes whose objects may be destroyed with one of it.
    Closure(Name),
}

/// What a certificate says of a node: `NODE RANK {CLASS}`.
pub struct Line {
    /// The node.
    pub node: NodeName,
    /// Its rank, which is above the rank of each node that it may lead to at once.
    pub rank: u32,
    /// Its destroy set: its items stand for the classes whose objects may be destroyed in a chain of calls that begins at
    /// the node. They may be in any order, and one may appear twice.
    pub destroys: Items<SetItem>,
}

impl Drop for Line {
    fn drop(self) {
        let Line {
            node: _,
            rank: _,
            destroys: _,
        } = self;
    }
}

/// A certificate: a bound on how deep activations nest, and a rank and a destroy set for each node. Whether it is valid
/// for a program is reported by `check`.
pub struct Certificate {
    /// The bound, which is above each rank.
    pub bound: u32,
    /// The lines of the nodes, in any order.
    pub lines: Items<Line>,
}

impl Drop for Certificate {
    fn drop(self) {
        let Certificate { bound: _, lines: _ } = self;
    }
}
