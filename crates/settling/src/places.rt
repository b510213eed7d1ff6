//! Places in a certificate, by the numbers of nodes.

ghost use Rattle.std.specs.Prelude.{◌≡◌, length, replicate, IfOk, None};
ghost use Rattle.effect_scan.specs.Nodes.{nodes_of};
ghost use Rattle.effect_scan.specs.Scans.{IsScan};
ghost use Rattle.settling.specs.code.Lines.{NotesPlace};

use certificate_lang::NodeName;
use effect_scan::Scan;
use meta_model::Meta;
use rank_check::node_number;
use sqlite_items::Items;
use std::alloc::{AllocError, Global};

/// What came of noting a place for the node of a name.
pub enum Noted {
    /// There is no node of this name.
    NoNode,
    /// It had no place, and has this one now.
    First,
    /// It has this place, which it had before.
    Before(usize),
}

/// Notes the place for the node of this name where it has none.
pub fn note_place(
    meta: &Meta,
    scan: &Scan,
    place: usize,
    name: &NodeName,
    places: &mut Items<Option<usize>>,
) -> Noted
    requires scan { IsScan meta.now scan.now }
    requires count { length places.old ≡ length (nodes_of meta.now) }
    ensures { NotesPlace meta.now name.now place places.old result places.new }
{
    let Some(node) = node_number(meta, scan, name) else {
        return Noted::NoNode;
    };
    match places.as_slice()[node] {
        Some(other) => Noted::Before(other),
        None => {
            places.set(node, Some(place));
            Noted::First
        }
    }
}

/// No place for each of so many nodes. Its error is that memory was refused.
pub fn no_places(alloc: Global, count: usize) -> Result<Items<Option<usize>>, AllocError>
    ensures { IfOk result (λ places. places ≡ replicate count None) }
{
    let mut places = Items::new(alloc);
    for _node in 0..count {
        places.push(None)?;
    }
    Ok(places)
}
