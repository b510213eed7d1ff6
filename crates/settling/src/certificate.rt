//! Settling certificates: what they say of each node of a program, and of the sets of nodes that come to rest.

use certificate_lang::{NodeName, SetItem};
use sqlite_items::Items;

/// What a settling certificate says of a node: `NODE RANK STEP {ITEM}`.
pub struct SettlingLine {
    /// The node.
    pub node: NodeName,
    /// Its rank, which is above the rank of each node that it may lead to at once, but within a set of a property.
    pub rank: u32,
    /// Its step: how much deeper activations above it may nest, for each object that was made.
    pub step: u32,
    /// Its destroy set.
    pub destroys: Items<SetItem>,
}

impl Drop for SettlingLine {
    fn drop(self) {
        let SettlingLine {
            node: _,
            rank: _,
            step: _,
            destroys: _,
        } = self;
    }
}

/// What a settling certificate says of a set that comes to rest: `round ROUND NODE {NODE}`.
pub struct SettlingSet {
    /// How many activations there are at most from one write of a property of the set to the next.
    pub round: u32,
    /// The nodes of the set.
    pub members: Items<NodeName>,
}

impl Drop for SettlingSet {
    fn drop(self) {
        let SettlingSet {
            round: _,
            members: _,
        } = self;
    }
}

/// A settling certificate: how deep activations nest, as a bound and a step for each object that was made.
pub struct SettlingCertificate {
    /// The bound, which is above each rank.
    pub bound: u32,
    /// The step, which is at least that of each node.
    pub step: u32,
    /// The lines of the nodes, in any order.
    pub lines: Items<SettlingLine>,
    /// The sets, in any order.
    pub sets: Items<SettlingSet>,
}

impl Drop for SettlingCertificate {
    fn drop(self) {
        let SettlingCertificate {
            bound: _,
            step: _,
            lines: _,
            sets: _,
        } = self;
    }
}
