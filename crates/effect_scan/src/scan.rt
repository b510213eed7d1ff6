//! What the members of a program's classes may do at once.

ghost use Rattle.std.specs.Prelude.{◌≡◌, length, IfOk};
ghost use Rattle.name_indexes.specs.LookUps.{LooksUp, FindsOnly};
ghost use Rattle.effect_scan.specs.Nodes.{IsAt};
ghost use Rattle.effect_scan.specs.Rows.{row, pairs_from, AreAlike};
ghost use Rattle.effect_scan.specs.code.NodePlaces.{ArePlaces};
ghost use Rattle.effect_scan.specs.code.Leading.{AddsOwn};
ghost use Rattle.effect_scan.specs.Destroying.{AreClosures};
ghost use Rattle.effect_scan.specs.Scans.{AreEdges, IsScan};

use crate::closure::closures;
use crate::edges::{add_closures, add_notifiers, add_sites, add_wires, add_works};
use crate::families::{Families, Ordered};
use crate::node::Node;
use crate::numbering::Numbering;
use crate::places::NodePlaces;
use crate::rows::{empty_rows, targets_at};
use crate::targets::Targets;
use meta_model::Meta;
use sqlite_items::Items;
use std::alloc::{AllocError, Global};
use std::marker::Model;

/// The nodes of a program, the edges between them, and for each class those whose objects are destroyed with one of it.
pub struct Scan {
    numbering: Numbering,
    rows: Items<Targets>,
    alike: Items<usize>,
    closures: Items<Items<usize>>,
}

impl Drop for Scan {
    fn drop(self) {
        let Scan {
            numbering: _,
            rows: _,
            alike: _,
            closures: _,
        } = self;
    }
}

impl Model for Scan {
    ghost use Rattle.effect_scan.specs.Rows.{AreAlike};
    ghost use Rattle.effect_scan.specs.Scans.{Scanned};

    ghost Value = { Scanned };

    ghost view = { λ scan. record { nodes = scan.numbering; rows = scan.rows; closures = scan.closures } };

    ghost invariant = { λ scan. AreAlike scan.rows scan.alike };
}

impl Scan {
    /// The scan of a program that loads; its error is that memory was refused.
    pub fn of(alloc: Global, meta: &Meta) -> Result<Scan, AllocError>
        ensures { IfOk result (IsScan meta.now) }
    {
        let places = NodePlaces::of(alloc, meta)?;
        let closures = closures(alloc, meta, places.lineage.as_slice())?;
        let Ordered { rows, alike } = edges(alloc, meta, &places, closures.as_slice())?;
        let NodePlaces {
            numbering,
            lineage: _lineage,
        } = places;
        Ok(Scan {
            numbering,
            rows,
            alike,
            closures,
        })
    }

    /// The nodes in their order; a node's number is its place.
    pub fn nodes(&self) -> &[Node]
        ensures { result.now ≡ self.now.nodes }
    {
        self.numbering.nodes()
    }

    /// The number of the node, or `None` where it is no node of the program.
    pub fn number(&self, node: Node) -> Option<usize>
        ensures value { LooksUp (IsAt self.now.nodes node) result }
        ensures only { FindsOnly (IsAt self.now.nodes node) result }
    {
        self.numbering.number(node)
    }

    /// The numbers of the nodes that the node of this number may lead to, in their order; none past the last node.
    pub fn targets(&self, node: usize) -> &[usize]
        ensures { result.now ≡ row self.now.rows node }
    {
        targets_at(self.rows.as_slice(), node)
    }

    /// For each node, by number, the numbers of the nodes that it may lead to.
    pub fn rows(&self) -> &[Targets]
        ensures { result.now ≡ self.now.rows }
    {
        self.rows.as_slice()
    }

    /// For each node, by number, the number of one that leads to the same nodes: the first such, where that is known. So what
    /// hangs on these alone needs to be found once.
    pub fn alike(&self) -> &[usize]
        ensures { AreAlike self.now.rows result.now }
    {
        self.alike.as_slice()
    }

    /// All edges, by the numbers of the nodes that they lead from and to, in this order.
    pub fn edges(&self, alloc: Global) -> Result<Items<(usize, usize)>, AllocError>
        ensures { IfOk result (λ edges. edges ≡ pairs_from 0 self.now.rows) }
    {
        let mut edges = Items::new(alloc);
        for (from, row) in self.rows.as_slice().iter().enumerate() {
            for to in row.as_slice() {
                edges.push((from, *to))?;
            }
        }
        Ok(edges)
    }

    /// For each class, by number, those of the objects that are destroyed with one of it, in their order.
    pub fn destroys(&self) -> &[Items<usize>]
        ensures { result.now ≡ self.now.closures }
    {
        self.closures.as_slice()
    }
}

/// The edges of the program: for each node those that it may lead to.
fn edges(
    alloc: Global,
    meta: &Meta,
    places: &NodePlaces,
    closures: &[Items<usize>],
) -> Result<Ordered, AllocError>
    requires places { ArePlaces meta.now places.now }
    requires closures { AreClosures meta.now closures.now }
    ensures edges { IfOk result (λ ordered. AreEdges meta.now ordered.rows) }
    ensures alike { IfOk result (λ ordered. AreAlike ordered.rows ordered.alike) }
{
    let mut rows = empty_rows(alloc, places.numbering.nodes().len())?;
    add_own(alloc, meta, places, closures, rows.as_mut_slice())?;
    let mut families = Families::of(alloc, rows)?;
    add_wires(alloc, places, meta.wires(), &mut families)?;
    add_sites(alloc, places, meta.sites(), &mut families)?;
    families.in_order(alloc)
}

/// Adds the edges that each node has of its own: those that works, notify signals and destructions give.
fn add_own(
    alloc: Global,
    meta: &Meta,
    places: &NodePlaces,
    closures: &[Items<usize>],
    rows: &mut [Targets],
) -> Result<(), AllocError>
    requires { length rows.old ≡ length places.now.numbering }
    ensures { IfOk result (λ _. AddsOwn meta.now places.now closures.now rows.old rows.new) }
{
    add_works(alloc, places, meta.classes(), rows)?;
    add_notifiers(alloc, places, meta.classes(), rows)?;
    add_closures(alloc, places, closures, rows)
}
