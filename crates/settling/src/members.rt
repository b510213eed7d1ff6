//! The sets of nodes, by their places in the certificate.

ghost use Rattle.std.specs.Prelude.{◌≡◌, length, IfOk};
ghost use Rattle.effect_scan.specs.Nodes.{nodes_of};
ghost use Rattle.effect_scan.specs.Scans.{IsScan};
ghost use Rattle.settling.specs.code.Members.{AddsMember, AddsMembers, FindsSets};

use crate::certificate::SettlingSet;
use crate::places::{Noted, no_places, note_place};
use certificate_lang::NodeName;
use effect_scan::Scan;
use meta_model::Meta;
use sqlite_items::Items;
use std::alloc::{AllocError, Global};

/// For each node the place of the set that it is of, if it is of one; or `None` where a member of a set is no node, or of two sets.
/// Its error is that memory was refused.
pub fn set_places(
    alloc: Global,
    meta: &Meta,
    scan: &Scan,
    sets: &[SettlingSet],
) -> Result<Option<Items<Option<usize>>>, AllocError>
    requires { IsScan meta.now scan.now }
    ensures { IfOk result (FindsSets meta.now sets.now) }
{
    let mut places = no_places(alloc, scan.nodes().len())?;
    for (place, set) in sets.iter().enumerate() {
        if !add_members(meta, scan, place, set.members.as_slice(), &mut places) {
            return Ok(None);
        }
    }
    Ok(Some(places))
}

/// Notes the set at this place for the nodes of these names, or tells by `false` that one is no node, or of another set.
fn add_members(
    meta: &Meta,
    scan: &Scan,
    place: usize,
    members: &[NodeName],
    places: &mut Items<Option<usize>>,
) -> bool
    requires scan { IsScan meta.now scan.now }
    requires count { length places.old ≡ length (nodes_of meta.now) }
    ensures { AddsMembers meta.now members.now place places.old result places.new }
{
    for name in members {
        if !add_member(meta, scan, place, name, places) {
            return false;
        }
    }
    true
}

/// The same of one name.
fn add_member(
    meta: &Meta,
    scan: &Scan,
    place: usize,
    name: &NodeName,
    places: &mut Items<Option<usize>>,
) -> bool
    requires scan { IsScan meta.now scan.now }
    requires count { length places.old ≡ length (nodes_of meta.now) }
    ensures { AddsMember meta.now name.now place places.old result places.new }
{
    match note_place(meta, scan, place, name, places) {
        Noted::NoNode => false,
        Noted::First => true,
        Noted::Before(other) => other == place,
    }
}
