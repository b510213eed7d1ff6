//! A search in breadth for a way along edges.

ghost use Rattle.std.specs.Prelude.{◌≡◌, ℕ, ◌<◌, Bool, List, length, IfOk, MatchOption};
ghost use Rattle.rank_graph.specs.Graphs.{InRange};
ghost use Rattle.rank_graph.specs.Walks.{IsWalk};
ghost use Rattle.program_commands.specs.Ways.{IsTree, IsWayTo, Meets, NoWayTo, OpenEdge, met_at};

use effect_scan::{Targets, targets_at};
use sqlite_items::Items;
use std::alloc::{AllocError, Global};

/// A node that a search has met.
#[derive(Clone, Copy)]
pub struct Met {
    /// Its number.
    pub node: usize,
    /// The place of the one that it was met from; of the first its own.
    pub back: usize,
}

/// What a search has found.
pub struct WaySearch {
    /// The nodes that were met, each behind the one that it was met from.
    pub found: Items<Met>,
    /// Of each node, by number, whether it isn't to be met any more.
    pub passed: Items<bool>,
}

impl Drop for WaySearch {
    fn drop(self) {
        let WaySearch {
            found: _,
            passed: _,
        } = self;
    }
}

/// A shortest way along edges from a node, one edge at least, to one that has a flag in `ends`. It comes to no node that has one
/// in `closed`. Takes time linear in the nodes and edges. The error is that memory was refused.
pub fn way_to(
    alloc: Global,
    rows: &[Targets],
    closed: Items<bool>,
    ends: &[bool],
    from: usize,
) -> Result<Option<Items<usize>>, AllocError>
    requires inside { InRange rows.now }
    requires closed { length closed ≡ length rows.now }
    requires ends { length ends.now ≡ length rows.now }
    ensures { IfOk result (λ found. MatchOption found
        (NoWayTo (OpenEdge rows.now closed) ends.now from)
        (IsWayTo (OpenEdge rows.now closed) ends.now from)) }
{
    let mut found = Items::new(alloc);
    found.push(Met {
        node: from,
        back: 0,
    })?;
    let mut search = WaySearch {
        found,
        passed: closed,
    };
    let mut at = 0;
    while at < search.found.len() {
        let node = search.found.as_slice()[at].node;
        for target in targets_at(rows, node) {
            if search.meets(ends, at, *target)? {
                let nodes = way_back(alloc, search.found.as_slice(), at, *target)?;
                return Ok(Some(nodes));
            }
        }
        at += 1;
    }
    Ok(None)
}

impl WaySearch {
    /// Follows an edge that leads from the node at this place to this one, and answers whether that is an end which wasn't passed. The
    /// error is that memory was refused.
    fn meets(&mut self, ends: &[bool], at: usize, target: usize) -> Result<bool, AllocError>
        requires passed { target < length self.old.passed }
        requires ends { target < length ends.now }
        ensures { IfOk result (Meets ends.now at target self.old self.new) }
    {
        if self.passed.as_slice()[target] {
            return Ok(false);
        }
        if ends[target] {
            return Ok(true);
        }
        self.passed.set(target, true);
        self.found.push(Met {
            node: target,
            back: at,
        })?;
        Ok(false)
    }
}

/// The nodes on the way from the first that was met to the one at this place, and to a last one. The error is that memory was
/// refused.
fn way_back(
    alloc: Global,
    found: &[Met],
    at: usize,
    last: usize,
) -> Result<Items<usize>, AllocError>
    requires at { at < length found.now }
    requires before { (k : ℕ) → 0 < k → k < length found.now → (met_at found.now k).back < k }
    ensures { IfOk result (λ nodes. (rows : List (List ℕ)) (closed : List Bool) → IsTree rows closed found.now →
        OpenEdge rows closed (met_at found.now at).node last →
        IsWalk (OpenEdge rows closed) (met_at found.now 0).node last nodes × (1 < length nodes)) }
{
    let mut nodes = Vec::new(alloc);
    nodes.push(last)?;
    nodes.push(found[at].node)?;
    let mut place = at;
    while place > 0 {
        place = found[place].back;
        nodes.push(found[place].node)?;
    }
    nodes.reverse();
    Ok(Items::from_vec(nodes))
}
