//! What makes a certificate invalid for a program.

ghost use Rattle.std.specs.Prelude.{IfOk, IfErr};
ghost use Rattle.effect_scan.specs.Scans.{IsScan};
ghost use Rattle.rank_check.specs.Checks.{Judges, IsCause, no_of};
ghost use Rattle.rank_check.specs.Entries.{IsReady, NamesNodes, JudgesProgram, BreaksProgram};
ghost use Rattle.rank_check.specs.Valid.{IsValid};

use crate::causes::Cause;
use crate::destroys::first_mistake;
use crate::entries::{NodeClaim, entries};
use crate::ranks::{first_rise, loose_bound};
use certificate_lang::Certificate;
use effect_scan::{Scan, edges_join_nodes};
use meta_model::Meta;
use std::alloc::Global;
use type_check::{unfit_wire, untyped};

/// What breaks the first condition of a valid certificate that doesn't hold, as the error. `examine` answers by this very
/// judgement, and `check` keeps the condition alone. `Memory` comes only where a growth of memory was refused.
pub fn judge(alloc: Global, meta: &Meta, certificate: &Certificate) -> Result<(), Cause>
    ensures { Judges meta.now certificate.now result }
{
    match judge_scanned(alloc, meta, certificate) {
        Ok(_scan) => Ok(()),
        Err(cause) => Err(cause),
    }
}

/// The same, with the scan of the program where the certificate is valid.
pub(crate) fn judge_scanned(
    alloc: Global,
    meta: &Meta,
    certificate: &Certificate,
) -> Result<Scan, Cause>
    ensures scan { IfOk result (IsScan meta.now) }
    ensures valid { IfOk result (λ _. IsValid meta.now certificate.now) }
    ensures cause { IfErr result (IsCause meta.now certificate.now) }
{
    judge_program(alloc, meta)?;
    let scan = Scan::of(alloc, meta)?;
    let entries = entries(alloc, meta, &scan, certificate)?;
    judge_entries(meta, &scan, entries.as_slice(), certificate)?;
    Ok(scan)
}

/// The first of the conditions on the program alone: its wires fit, its literals, bodies and bindings are typed. What breaks it is
/// the error: `Wire`, `BodyType`; `Memory` comes only where a growth of memory was refused.
pub fn judge_program(alloc: Global, meta: &Meta) -> Result<(), Cause>
    ensures certificates { JudgesProgram meta.now result }
    ensures program { IfErr result (λ cause. BreaksProgram meta.now (no_of cause)) }
{
    if let Some(wire) = unfit_wire(meta) {
        return Err(Cause::Wire(wire));
    }
    match untyped(alloc, meta)? {
        Some(spot) => Err(Cause::BodyType(spot)),
        None => Ok(()),
    }
}

/// The first of the conditions on ranks and sets.
fn judge_entries(
    meta: &Meta,
    scan: &Scan,
    entries: &[NodeClaim],
    certificate: &Certificate,
) -> Result<(), Cause>
    requires scan { IsScan meta.now scan.now }
    requires ready { IsReady meta.now }
    requires names { NamesNodes meta.now certificate.now entries.now }
    ensures { Judges meta.now certificate.now result }
{
    // All edges are between nodes, so they are all looked at.
    edges_join_nodes(meta);
    if let Some(rise) = first_rise(scan, entries) {
        return Err(Cause::Edge(rise));
    }
    if let Some(mistake) = first_mistake(meta, scan, entries) {
        return Err(Cause::Destroys(mistake));
    }
    match loose_bound(certificate) {
        Some(loose) => Err(Cause::Bound(loose)),
        None => Ok(()),
    }
}
