//! The lines of nodes, by their places in the certificate.

ghost use Rattle.std.specs.Prelude.{◌≡◌, ◌&&◌, length, IfOk};
ghost use Rattle.effect_scan.specs.Nodes.{nodes_of};
ghost use Rattle.effect_scan.specs.Scans.{IsScan};
ghost use Rattle.settling.specs.code.Lines.{AddsLine, PlacesLines, FindsAll};

use crate::certificate::SettlingLine;
use crate::places::{Noted, no_places, note_place};
use certificate_lang::NodeName;
use effect_scan::Scan;
use meta_model::Meta;
use sqlite_items::Items;
use std::alloc::{AllocError, Global};

/// The lines of nodes.
pub struct LinePlaces {
    /// For each node the place of a line that is for it, or `None` where there is none.
    pub places: Items<Option<usize>>,
    /// Whether each line is for a node, and no two are for one node.
    pub apart: bool,
}

impl Drop for LinePlaces {
    fn drop(self) {
        let LinePlaces {
            places: _,
            apart: _,
        } = self;
    }
}

/// The places of the lines of nodes. Its error is that memory was refused.
pub fn line_places(
    alloc: Global,
    meta: &Meta,
    scan: &Scan,
    lines: &[SettlingLine],
) -> Result<LinePlaces, AllocError>
    requires { IsScan meta.now scan.now }
    ensures { IfOk result (PlacesLines meta.now lines.now) }
{
    let mut places = no_places(alloc, scan.nodes().len())?;
    let mut apart = true;
    for (place, line) in lines.iter().enumerate() {
        let added = add_line(meta, scan, place, &line.node, &mut places);
        apart = both(apart, added);
    }
    Ok(LinePlaces { places, apart })
}

/// Whether both are so.
fn both(one: bool, other: bool) -> bool
    ensures { result ≡ (one && other) }
{
    one && other
}

/// Notes the place of a line for the node of this name, or tells by `false` that there is no such node, or that it has a line.
fn add_line(
    meta: &Meta,
    scan: &Scan,
    place: usize,
    name: &NodeName,
    places: &mut Items<Option<usize>>,
) -> bool
    requires scan { IsScan meta.now scan.now }
    requires count { length places.old ≡ length (nodes_of meta.now) }
    ensures { AddsLine meta.now name.now place places.old result places.new }
{
    match note_place(meta, scan, place, name, places) {
        Noted::First => true,
        Noted::NoNode => false,
        Noted::Before(_) => false,
    }
}

/// The places, or `None` where a node has none. Its error is that memory was refused.
pub fn all_places(
    alloc: Global,
    places: &[Option<usize>],
) -> Result<Option<Items<usize>>, AllocError>
    ensures { IfOk result (FindsAll places.now) }
{
    let mut all = Items::new(alloc);
    for place in places {
        match place {
            Some(line) => all.push(*line)?,
            None => return Ok(None),
        }
    }
    Ok(Some(all))
}
