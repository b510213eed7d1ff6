//! What makes a settling certificate invalid for a program.

ghost use Rattle.effect_scan.specs.Scans.{IsScan};
ghost use Rattle.rank_check.specs.Entries.{IsReady};
ghost use Rattle.settling.specs.Checks.{Judges};
ghost use Rattle.settling.specs.code.Standings.{AreTables};

use crate::certificate::SettlingCertificate;
use crate::falling::edges_fall;
use crate::holding::sets_hold;
use crate::resting::{is_bounded, sets_rest};
use crate::tables::Tables;
use effect_scan::{Scan, edges_join_nodes};
use meta_model::Meta;
use rank_check::{No, judge_program};
use std::alloc::Global;

/// The first condition of a valid settling certificate that doesn't hold, as the error: `Wire`, where a wire's method doesn't fit
/// its signal; `BodyType`, where a literal, a body or a binding isn't typed; `Missing`, where a node has no line; `Extra`, where a
/// line is for something that isn't a node or for the node of another line, a member of a set is no node or one of two sets, or a
/// class in a destroy set isn't there; `Edge`, where a rank doesn't fall along an edge, a step rises, or a way within a set doesn't
/// hand on; `Destroys`, as without steps; `Bound`, where a rank isn't below the bound, the bound is over 256, a step is above the
/// certificate's, or a set's round, ranks and steps don't let it come to rest. `Memory` comes only where a growth of memory was
/// refused. Beside the scan, and what `hand_on` takes along edges within sets, time is linear in the certificate and in the
/// program's nodes and edges, with the words of a set of classes for each set that is compared.
pub fn judge(alloc: Global, meta: &Meta, certificate: &SettlingCertificate) -> Result<(), No>
    ensures { Judges meta.now certificate.now result }
{
    match judge_program(alloc, meta) {
        Ok(()) => judge_certificate(alloc, meta, certificate),
        Err(cause) => Err(cause.no()),
    }
}

/// The first of the conditions on the certificate, where those on the program alone hold.
fn judge_certificate(
    alloc: Global,
    meta: &Meta,
    certificate: &SettlingCertificate,
) -> Result<(), No>
    requires { IsReady meta.now }
    ensures { Judges meta.now certificate.now result }
{
    let scan = Scan::of(alloc, meta)?;
    let tables = Tables::of(alloc, meta, &scan, certificate)?;
    judge_tables(alloc, meta, &scan, &tables, certificate)
}

/// The first of the conditions on edges and sets.
fn judge_tables(
    alloc: Global,
    meta: &Meta,
    scan: &Scan,
    tables: &Tables,
    certificate: &SettlingCertificate,
) -> Result<(), No>
    requires scan { IsScan meta.now scan.now }
    requires ready { IsReady meta.now }
    requires tables { AreTables meta.now certificate.now tables.now }
    ensures { Judges meta.now certificate.now result }
{
    // All edges are between nodes, so they are all looked at.
    edges_join_nodes(meta);
    let standings = tables.standings.as_slice();
    if !edges_fall(meta, scan, standings) {
        return Err(No::Edge);
    }
    if !sets_hold(meta, scan, tables.destroys.as_slice()) {
        return Err(No::Destroys);
    }
    if !is_bounded(certificate) {
        return Err(No::Bound);
    }
    if sets_rest(alloc, meta, scan, standings, certificate)? {
        Ok(())
    } else {
        Err(No::Bound)
    }
}
