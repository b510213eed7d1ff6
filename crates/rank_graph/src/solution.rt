//! What is known of a graph without cycles.

ghost use Rattle.std.specs.Prelude.{◌≡◌, ◌↔◌, ◌<◌, ℕ, false, slice_get, IsTrue};
ghost use Rattle.rank_graph.specs.declared.bits.TheConstants.{SIZE};
ghost use Rattle.rank_graph.specs.Entries.{leads_at};
ghost use Rattle.rank_graph.specs.Solutions.{entries_of, rank_of, leads_of};

use crate::bits::SIZE;
use crate::path::NodeRank;
use crate::states::Found;
use sqlite_items::{Items, at};

/// The ranks of nodes, and the classes that they lead to.
pub struct Solution {
    groups: Items<Found>,
}

impl Drop for Solution {
    fn drop(self) {
        let Solution { groups: _ } = self;
    }
}

impl Solution {
    /// Made of what was found for each group of 128 classes.
    pub(crate) fn of(groups: Items<Found>) -> Solution
        ensures { result.groups ≡ groups }
    {
        Solution { groups }
    }

    /// The rank of the node: how many edges the longest chain from it has.
    pub fn rank(&self, node: usize) -> usize
        ensures { result ≡ rank_of self.now node }
    {
        match self.entry(0, node) {
            Some(entry) => entry.rank,
            None => 0,
        }
    }

    /// Whether the class is one that the node has itself, or that its edges lead to.
    pub fn leads_to(&self, node: usize, class: usize) -> bool
        ensures { result ≡ leads_of self.now node class }
    {
        match self.entry(class / SIZE, node) {
            Some(entry) => entry.classes.contains((class % SIZE) as u32),
            None => false,
        }
    }

    /// Whether the node leads to no class.
    pub fn leads_nowhere(&self, node: usize) -> bool
        ensures { IsTrue result ↔ ((c : ℕ) → leads_of self.now node c ≡ false) }
    {
        for group in 0..self.groups.len() {
            if !self.is_none_in(group, node) {
                return false;
            }
        }
        true
    }

    /// Whether the node leads to no class of this group.
    fn is_none_in(&self, group: usize, node: usize) -> bool
        ensures { IsTrue result ↔ ((c : ℕ) → c < SIZE → leads_at (entries_of self.now group) node c ≡ false) }
    {
        match self.entry(group, node) {
            Some(entry) => entry.classes.is_none(),
            None => true,
        }
    }

    /// What was found of the node for this group of classes.
    #[inline(always)]
    fn entry(&self, group: usize, node: usize) -> Option<NodeRank>
        ensures { result ≡ slice_get (entries_of self.now group) node }
    {
        match at(self.groups.as_slice(), group) {
            Some(found) => found.entry(node),
            None => None,
        }
    }
}
