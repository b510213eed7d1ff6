//! The ranks and destroy sets of nodes, by their numbers.

ghost use Rattle.std.specs.Prelude.{ℕ, ◌≡◌, ◌<◌, [], length, slice_get, Some, IfOk};
ghost use Rattle.effect_scan.specs.Scans.{IsScan};
ghost use Rattle.rank_check.specs.Entries.{AreNumbers, ArePlaces, FindsEntry, FindsEntries, GivesEntries};
ghost use Rattle.effect_scan.specs.Nodes.{nodes_of};

use crate::causes::{Cause, Extra};
use crate::naming::line_numbers;
use crate::places::{line_places, take_first_extra};
use crate::sets::shared_set;
use basic_types::Shared;
use certificate_lang::{Certificate, Line};
use class_sets::ClassSet;
use effect_scan::Scan;
use meta_model::Meta;
use sqlite_items::Items;
use std::alloc::{AllocError, Global};

/// What the certificate says of a node.
#[derive(Drop)]
pub struct NodeClaim {
    /// The place of its line among the certificate's.
    pub line: usize,
    /// Its rank.
    pub rank: u32,
    /// Its destroy set; other nodes may have the same one.
    pub destroys: Shared<ClassSet>,
}

/// The entries of all nodes, in their order. `Missing`, where a node has no line; else `Extra`, where a line is for nothing
/// or for the node of another line, or a class in a set isn't there; `Memory`, where a growth of memory was refused.
pub fn entries(
    alloc: Global,
    meta: &Meta,
    scan: &Scan,
    certificate: &Certificate,
) -> Result<Items<NodeClaim>, Cause>
    requires { IsScan meta.now scan.now }
    ensures { GivesEntries meta.now certificate.now result }
{
    let lines = certificate.lines.as_slice();
    let numbers = line_numbers(alloc, meta, scan, lines)?;
    match line_places(alloc, scan.nodes().len(), numbers.as_slice())? {
        Ok(places) => placed_entries(alloc, meta, scan, certificate, numbers, places.as_slice()),
        Err(node) => Err(Cause::Missing(node)),
    }
}

/// The entries of all nodes, where each has a line, at these places.
fn placed_entries(
    alloc: Global,
    meta: &Meta,
    scan: &Scan,
    certificate: &Certificate,
    numbers: Items<Option<usize>>,
    places: &[usize],
) -> Result<Items<NodeClaim>, Cause>
    requires scan { IsScan meta.now scan.now }
    requires numbers { AreNumbers meta.now certificate.now.lines numbers }
    requires places { ArePlaces (length (nodes_of meta.now)) numbers places.now }
    ensures { GivesEntries meta.now certificate.now result }
{
    if let Some(extra) = take_first_extra(numbers, places) {
        return Err(Cause::Extra(extra));
    }
    match entries_at(alloc, meta, scan, certificate.lines.as_slice(), places)? {
        Ok(entries) => Ok(entries),
        Err(extra) => Err(Cause::Extra(extra)),
    }
}

/// The entries of the lines at these places, or the first class in a set that isn't there.
fn entries_at(
    alloc: Global,
    meta: &Meta,
    scan: &Scan,
    lines: &[Line],
    places: &[usize],
) -> Result<Result<Items<NodeClaim>, Extra>, AllocError>
    requires scan { IsScan meta.now scan.now }
    requires inside { (n k : ℕ) → slice_get places.now n ≡ Some k → k < length lines.now }
    ensures { IfOk result (FindsEntries meta.now lines.now places.now) }
{
    let empty = Shared::new(alloc, ClassSet::empty(alloc))?;
    let mut entries = Items::from_vec(Vec::with_capacity(alloc, places.len())?);
    for place in places {
        match entry_of(alloc, meta, scan, *place, &lines[*place], &empty)? {
            Ok(entry) => entries.push(entry)?,
            Err(item) => return Ok(Err(Extra::Class(*place, item))),
        }
    }
    Ok(Ok(entries))
}

/// The entry of the line at this place, or the place of the first item of its set whose class isn't there. A line without items
/// has the empty set.
fn entry_of(
    alloc: Global,
    meta: &Meta,
    scan: &Scan,
    place: usize,
    line: &Line,
    empty: &Shared<ClassSet>,
) -> Result<Result<NodeClaim, usize>, AllocError>
    requires scan { IsScan meta.now scan.now }
    requires empty { empty.now ≡ [] }
    ensures { IfOk result (FindsEntry meta.now line.now place) }
{
    match shared_set(alloc, meta, scan, line.destroys.as_slice(), empty)? {
        Ok(destroys) => Ok(Ok(NodeClaim {
            line: place,
            rank: line.rank,
            destroys,
        })),
        Err(item) => Ok(Err(item)),
    }
}
