//! Classes in groups of 128, for each of which the graph is searched.

ghost use Rattle.std.specs.Prelude.{◌≡◌, ℕ, ◌<◌, length, IfOk, IfErr};
ghost use Rattle.effect_scan.specs.Rows.{Edge, AreAlike};
ghost use Rattle.rank_graph.specs.Graphs.{InRange};
ghost use Rattle.rank_graph.specs.Faults.{IsUnranked};
ghost use Rattle.rank_graph.specs.Groups.{HasGroup, AreGroup, IsGroup};
ghost use Rattle.rank_graph.specs.Solutions.{AreRanks, AreClasses, rank_of, leads_of};

use crate::bits::{Bits, SIZE};
use crate::fault::Unranked;
use crate::search::search;
use crate::solution::Solution;
use effect_scan::Targets;
use sqlite_items::Items;
use std::alloc::{AllocError, Global};

/// The ranks of the nodes, and the classes that they lead to, where each has the classes of its row of `own` itself, all of
/// them below `classes`. `Cycle` comes where some nodes are a cycle, and `Memory` only where a growth of memory was refused.
/// Takes time linear in the nodes, own classes and edges, for each 128 classes. `alike` tells for each node one that has the same
/// edges, which count once where it is visited first.
pub fn solve(
    alloc: Global,
    rows: &[Targets],
    alike: &[usize],
    own: &[Items<usize>],
    classes: usize,
) -> Result<Solution, Unranked>
    requires inside { InRange rows.now }
    requires alike { AreAlike rows.now alike.now }
    requires own { length own.now ≡ length rows.now }
    requires classes { (a c : ℕ) → Edge own.now a c → c < classes }
    ensures ranks { IfOk result (λ solution. AreRanks rows.now (rank_of solution)) }
    ensures classes { IfOk result (λ solution. AreClasses rows.now own.now (leads_of solution)) }
    ensures err { IfErr result (IsUnranked rows.now) }
{
    let mut groups = Items::new(alloc);
    for group in 0..classes / SIZE + 1 {
        let bits = group_of(alloc, own, group)?;
        let entries = search(alloc, rows, alike, bits.as_slice())?;
        groups.push(entries)?;
    }
    Ok(Solution::of(groups))
}

/// For each node those of its own classes that are in the group.
fn group_of(alloc: Global, own: &[Items<usize>], group: usize) -> Result<Items<Bits>, AllocError>
    ensures { IfOk result (AreGroup group own.now) }
{
    let mut all = Items::from_vec(Vec::with_capacity(alloc, own.len())?);
    for row in own {
        all.push(bits_of(row.as_slice(), group))?;
    }
    Ok(all)
}

/// Those of the classes that are in the group.
fn bits_of(classes: &[usize], group: usize) -> Bits
    ensures { HasGroup group classes.now result }
{
    let mut bits = Bits::none();
    for class in classes {
        if *class / SIZE == group {
            bits = bits.with((*class % SIZE) as u32);
        }
    }
    bits
}
