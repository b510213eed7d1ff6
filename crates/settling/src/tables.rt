//! What a certificate says, by the numbers of nodes.

ghost use Rattle.effect_scan.specs.Scans.{IsScan};
ghost use Rattle.settling.specs.code.Lines.{AreApart, ArePlaced};
ghost use Rattle.settling.specs.code.Members.{AreSetPlaces};
ghost use Rattle.settling.specs.code.Standings.{GivesTables};

use crate::certificate::SettlingCertificate;
use crate::destroy_sets::destroy_sets;
use crate::lines::{all_places, line_places};
use crate::members::set_places;
use crate::standings::{Standing, standings};
use class_sets::ClassSet;
use effect_scan::Scan;
use meta_model::Meta;
use rank_check::No;
use sqlite_items::Items;
use std::alloc::Global;

/// What the certificate says of the nodes, in their order.
pub struct Tables {
    /// Their standings.
    pub standings: Items<Standing>,
    /// Their destroy sets.
    pub destroys: Items<ClassSet>,
}

impl Drop for Tables {
    fn drop(self) {
        let Tables {
            standings: _,
            destroys: _,
        } = self;
    }
}

impl Tables {
    /// The tables of the certificate. `Missing`, where a node has no line; else `Extra`, where a line is for nothing or for the node
    /// of another line, a member of a set is no node or one of two sets, or a class in a destroy set isn't there; `Memory`, where a
    /// growth of memory was refused.
    pub fn of(
        alloc: Global,
        meta: &Meta,
        scan: &Scan,
        certificate: &SettlingCertificate,
    ) -> Result<Tables, No>
        requires { IsScan meta.now scan.now }
        ensures { GivesTables meta.now certificate.now result }
    {
        let lines = certificate.lines.as_slice();
        let found = line_places(alloc, meta, scan, lines)?;
        let apart = found.apart;
        let noted = found.places.as_slice();
        match all_places(alloc, noted)? {
            Some(places) => {
                if !apart {
                    return Err(No::Extra);
                }
                placed_tables(alloc, meta, scan, certificate, places.as_slice())
            }
            None => Err(No::Missing),
        }
    }
}

/// The tables, where each node has one line, at these places, and each line is for one.
fn placed_tables(
    alloc: Global,
    meta: &Meta,
    scan: &Scan,
    certificate: &SettlingCertificate,
    places: &[usize],
) -> Result<Tables, No>
    requires scan { IsScan meta.now scan.now }
    requires apart { AreApart meta.now certificate.now.lines }
    requires places { ArePlaced meta.now certificate.now.lines places.now }
    ensures { GivesTables meta.now certificate.now result }
{
    match set_places(alloc, meta, scan, certificate.sets.as_slice())? {
        Some(sets) => full_tables(alloc, meta, scan, certificate, places, sets.as_slice()),
        None => Err(No::Extra),
    }
}

/// The tables, where each member is a node too, of the set at this place alone.
fn full_tables(
    alloc: Global,
    meta: &Meta,
    scan: &Scan,
    certificate: &SettlingCertificate,
    places: &[usize],
    sets: &[Option<usize>],
) -> Result<Tables, No>
    requires scan { IsScan meta.now scan.now }
    requires apart { AreApart meta.now certificate.now.lines }
    requires places { ArePlaced meta.now certificate.now.lines places.now }
    requires sets { AreSetPlaces meta.now certificate.now.sets sets.now }
    ensures { GivesTables meta.now certificate.now result }
{
    let lines = certificate.lines.as_slice();
    match destroy_sets(alloc, meta, scan, lines, places)? {
        Some(destroys) => {
            let standings = standings(alloc, scan, lines, places, sets)?;
            Ok(Tables {
                standings,
                destroys,
            })
        }
        None => Err(No::Extra),
    }
}
