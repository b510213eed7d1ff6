//! How deep chains are, and how chains are reported.

use crate::node_text;
use crate::warned::ranked::Ranked;
use std::alloc::{AllocError, Global};

/// So many members of a chain are reported from its front, and from its back, where it has more than both together.
const FRONT: usize = 6;

const BACK: usize = 2;

impl Ranked<'_> {
    /// Adds a line that says how many members there are, and which chain of them is the longest.
    pub fn push_depth(&self, told: &mut String, alloc: Global) -> Result<(), AllocError> {
        let count = self.scan.nodes().len();
        let chain = self.deepest_chain(alloc)?;
        let length = chain.len();
        write!(told, "{count} members, deepest chain {length}: ")?;
        self.push_chain(told, alloc, chain.as_slice())?;
        told.push_str("\n")
    }

    /// Adds the names of the nodes of these numbers; of many those of the first and the last ones.
    pub fn push_chain(
        &self,
        told: &mut String,
        alloc: Global,
        chain: &[usize],
    ) -> Result<(), AllocError> {
        let back = chain.len().saturating_sub(BACK);
        for (place, number) in chain.iter().enumerate() {
            if place > 0 && (place <= FRONT || place >= back) {
                told.push_str(" -> ")?;
            }
            if place < FRONT || place >= back {
                if let Some(node) = self.scan.nodes().get(*number) {
                    told.push_str(node_text(alloc, self.meta, *node)?.as_str())?;
                }
            } else if place == FRONT {
                told.push_str("..")?;
            }
        }
        Ok(())
    }
}
