//! The lines of a settling certificate that is made.

ghost use Rattle.std.specs.Prelude.{◌≡◌, ◌<◌, ℕ, length, IfOk};
ghost use Rattle.effect_scan.specs.Laws.{IsNode};
ghost use Rattle.effect_scan.specs.Scans.{IsScan};
ghost use Rattle.rank_graph.specs.Solutions.{leads_of};
ghost use Rattle.settling_make.specs.Components.{number_of};
ghost use Rattle.settling_make.specs.Lines.{IsLineFor, AreLinesFor};

use crate::components::number_at;
use effect_scan::{Node, Scan};
use meta_model::Meta;
use rank_graph::Solution;
use rank_make::{node_name, set_items};
use settling::SettlingLine;
use sqlite_items::Items;
use std::alloc::{AllocError, Global};

/// The lines of all nodes, in their order, with these ranks of nodes, and by these numbers of nodes these steps and the classes of the
/// objects that may be destroyed from there. Takes time linear in the nodes, in nodes times classes, and in the closures of the classes that are
/// written. The error is that memory was refused.
pub fn lines_of(
    alloc: Global,
    meta: &Meta,
    scan: &Scan,
    numbers: &[usize],
    destroyed: &Solution,
    ranks: &[u32],
    steps: &[u32],
) -> Result<Items<SettlingLine>, AllocError>
    requires scan { IsScan meta.now scan.now }
    requires ranks { length ranks.now ≡ length scan.now.nodes }
    requires steps { (n : ℕ) → n < length scan.now.nodes → number_of numbers.now n < length steps.now }
    ensures { IfOk result (AreLinesFor meta.now numbers.now ranks.now steps.now (leads_of destroyed.now)) }
{
    let mut lines = Items::from_vec(Vec::with_capacity(alloc, scan.nodes().len())?);
    for (place, node) in scan.nodes().iter().enumerate() {
        let number = number_at(numbers, place);
        let rank = ranks[place];
        let step = steps[number];
        let line = line_of(alloc, meta, scan, destroyed, number, *node, rank, step)?;
        lines.push(line)?;
    }
    Ok(lines)
}

/// The line of this node, which has this number, with this rank and step. The error is that memory was refused.
fn line_of(
    alloc: Global,
    meta: &Meta,
    scan: &Scan,
    destroyed: &Solution,
    number: usize,
    node: Node,
    rank: u32,
    step: u32,
) -> Result<SettlingLine, AllocError>
    requires scan { IsScan meta.now scan.now }
    requires node { IsNode meta.now node }
    ensures { IfOk result (IsLineFor meta.now (leads_of destroyed.now) number node rank step) }
{
    let name = node_name(meta, node)?;
    let destroys = set_items(alloc, meta, scan, destroyed, number)?;
    Ok(SettlingLine {
        node: name,
        rank,
        step,
        destroys,
    })
}
