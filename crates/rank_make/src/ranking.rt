//! The ranks of a program's nodes, and the classes of the objects that may be destroyed from them.

ghost use Rattle.std.specs.Prelude.{◌≡◌};
ghost use Rattle.effect_scan.specs.Scans.{IsScan};
ghost use Rattle.rank_make.specs.Ranked.{RanksProgram, RanksScan};
ghost use Rattle.rank_make.specs.Solved.{own_rows};

use crate::rows::{nodes_at, own_rows};
use crate::why::Why;
use effect_scan::{Scan, edges_join_nodes};
use meta_model::Meta;
use rank_graph::{Solution, Unranked, solve};
use sqlite_items::Items;
use std::alloc::Global;

/// What is known of the nodes of a program in which edges lead back to none.
pub struct Ranks {
    /// The nodes and the edges between them.
    pub scan: Scan,
    /// The nodes' ranks, and the classes of the objects that may be destroyed from them, by the nodes' numbers.
    pub solution: Solution,
}

impl Drop for Ranks {
    fn drop(self) {
        let Ranks {
            scan: _,
            solution: _,
        } = self;
    }
}

/// The ranks of a program that loads, and the classes of the objects that may be destroyed from its nodes: those of its least
/// certificate, where it has one. Wires and types aren't judged. The error is `Cycle`, where edges lead back to a node, so that
/// no certificate is valid; `Memory` comes only where a growth of memory was refused. Beside the scan, time is linear in the
/// nodes and edges for each 128 classes.
pub fn rank(alloc: Global, meta: &Meta) -> Result<Ranks, Why>
    ensures { RanksProgram meta.now result }
{
    let scan = Scan::of(alloc, meta)?;
    match rank_scan(alloc, meta, &scan) {
        Ok(solution) => Ok(Ranks { scan, solution }),
        Err(why) => Err(why),
    }
}

/// The same for a program that was scanned before, with this scan: the nodes' ranks, and the classes of the objects that may be
/// destroyed from them. The errors are those of `rank`.
pub fn rank_scan(alloc: Global, meta: &Meta, scan: &Scan) -> Result<Solution, Why>
    requires { IsScan meta.now scan.now }
    ensures { RanksScan meta.now scan.now result }
{
    let own = own_rows(alloc, scan)?;
    rank_rows(alloc, meta, scan, own.as_slice())
}

/// The same, with the classes that the nodes have of their own.
fn rank_rows(alloc: Global, meta: &Meta, scan: &Scan, own: &[Items<usize>]) -> Result<Solution, Why>
    requires scan { IsScan meta.now scan.now }
    requires own { own.now ≡ own_rows scan.now }
    ensures { RanksScan meta.now scan.now result }
{
    // All edges are between nodes.
    edges_join_nodes(meta);
    match solve(alloc, scan.rows(), scan.alike(), own, meta.classes().len()) {
        Ok(solution) => Ok(solution),
        Err(Unranked::Cycle(numbers)) => {
            let nodes = nodes_at(alloc, scan, numbers.as_slice())?;
            Err(Why::Cycle(nodes))
        }
        Err(Unranked::Memory) => Err(Why::Memory),
    }
}
