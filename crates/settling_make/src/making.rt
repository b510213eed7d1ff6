//! The maker of settling certificates.

ghost use Rattle.std.specs.Prelude.{◌≡◌, ◌<◌, ℕ, length};
ghost use Rattle.effect_scan.specs.Scans.{IsScan};
ghost use Rattle.rank_check.specs.Entries.{IsReady};
ghost use Rattle.rank_graph.specs.Solutions.{rank_of, leads_of};
ghost use Rattle.settling_make.specs.Circles.{AreDestroyed};
ghost use Rattle.settling_make.specs.Collected.{LeadsOut, AreCollected};
ghost use Rattle.settling_make.specs.Components.{AreComponents};
ghost use Rattle.settling_make.specs.Flat.{MakesFlat};
ghost use Rattle.settling_make.specs.Least.{MakesLeast};
ghost use Rattle.settling_make.specs.Makes.{Makes, ReadyOrReason, SettledOrReason, SparedOrReason, MadeOrReason, AreSettled};

use crate::components::{Components, components_of};
use crate::ends::{destroyed, first_ending};
use crate::heights::heights_of;
use crate::laws::none_is_valid;
use crate::limits::{greatest_of, just_above};
use crate::lines::lines_of;
use crate::margins::margins_of;
use crate::outer::outer_rows;
use crate::ranks::ranks_of;
use crate::sets::sets_of;
use crate::steps::steps_of;
use crate::unsettled::first_unsettled;
use crate::why::Why;
use crate::without_steps::flat_certificate;
use effect_scan::{Scan, Targets, edges_join_nodes};
use meta_model::Meta;
use rank_check::{unfit_wire, untyped};
use rank_graph::Solution;
use rank_make::first_high;
use settling::{SettlingCertificate, each_has_alike};
use std::alloc::Global;

/// A valid settling certificate of the program, or why none was made. Its sets are the strongly connected components of the program's edges
/// that have an edge inside, each with the least round; with these the steps are the least, and so are the ranks; the bound is
/// just above the ranks, and the step the greatest. Its lines are those of the nodes in their order. Where the error isn't `TooHigh`,
/// `TooSteep` or `Memory`, no settling certificate is valid; `Memory` comes only where a growth of memory was refused. A program with a
/// certificate without steps has the step 0 here, and no greater bound, in the time of that one. Of any other one, beside the scan and
/// what `hand_on` takes along edges within components, time is linear in the nodes and edges, in the same measure.
pub fn make(alloc: Global, meta: &Meta) -> Result<SettlingCertificate, Why>
    ensures makes { Makes meta.now result }
    ensures flat { MakesFlat meta.now result }
    ensures least { MakesLeast meta.now result }
{
    // All edges are between nodes, names are those of one member, and what is valid without steps is so with the step 0.
    edges_join_nodes(meta);
    let _classes = meta.classes();
    each_has_alike();
    make_judged(alloc, meta)
}

/// A valid certificate, or why none was made.
fn make_judged(alloc: Global, meta: &Meta) -> Result<SettlingCertificate, Why>
    ensures { Makes meta.now result }
{
    judge_program(alloc, meta)?;
    // All edges are between nodes, and names are those of one member.
    edges_join_nodes(meta);
    let _classes = meta.classes();
    let scan = Scan::of(alloc, meta)?;
    let flat = flat_certificate(alloc, meta, &scan)?;
    match flat {
        Some(certificate) => Ok(certificate),
        None => make_scanned(alloc, meta, &scan),
    }
}

/// The same of a program with this scan, by the components of its edges.
fn make_scanned(alloc: Global, meta: &Meta, scan: &Scan) -> Result<SettlingCertificate, Why>
    requires scan { IsScan meta.now scan.now }
    requires ready { IsReady meta.now }
    ensures { Makes meta.now result }
{
    // All edges are between nodes, and names are those of one member.
    edges_join_nodes(meta);
    let _classes = meta.classes();
    let found = components_of(alloc, scan.rows())?;
    let heights = settled(alloc, meta, scan, &found)?;
    let outer = outer_rows(alloc, scan, &found)?;
    let ended = spared(alloc, meta, scan, &found, outer.as_slice())?;
    make_parts(
        alloc,
        meta,
        scan,
        &found,
        &heights,
        outer.as_slice(),
        &ended,
    )
}

/// The reasons that the program's wires, literals, bodies and bindings give.
fn judge_program(alloc: Global, meta: &Meta) -> Result<(), Why>
    ensures { ReadyOrReason meta.now result }
{
    if let Some(wire) = unfit_wire(meta) {
        return Err(Why::Wire(wire));
    }
    match untyped(alloc, meta)? {
        Some(spot) => Err(Why::BodyType(spot)),
        None => Ok(()),
    }
}

/// How long chains along circles are without an edge into a property, or the reason that a circle gives.
fn settled(alloc: Global, meta: &Meta, scan: &Scan, found: &Components) -> Result<Solution, Why>
    requires scan { IsScan meta.now scan.now }
    requires found { AreComponents scan.now.rows found.now }
    ensures { SettledOrReason meta.now result }
{
    none_is_valid(meta);
    if let Some(circle) = first_unsettled(meta, scan, found) {
        return Err(Why::Circling(circle));
    }
    let heights = match heights_of(alloc, meta, scan, found)? {
        Ok(heights) => heights,
        Err(circle) => return Err(Why::Circling(circle)),
    };
    match first_high(&heights, scan.nodes().len()) {
        Some(number) => Err(Why::TooLong(scan.nodes()[number])),
        None => Ok(heights),
    }
}

/// What may be destroyed from the components, or the reason that one gives.
fn spared(
    alloc: Global,
    meta: &Meta,
    scan: &Scan,
    found: &Components,
    outer: &[Targets],
) -> Result<Solution, Why>
    requires scan { IsScan meta.now scan.now }
    requires found { AreComponents scan.now.rows found.now }
    requires outer { AreCollected (LeadsOut scan.now.rows found.now.numbers) found.now.sets outer.now }
    ensures { SparedOrReason meta.now found.now.numbers result }
{
    none_is_valid(meta);
    let ended = destroyed(alloc, meta, scan, found, outer)?;
    match first_ending(meta, scan, found.numbers.as_slice(), &ended) {
        Some(node) => Err(Why::Ending(node)),
        None => Ok(ended),
    }
}

/// The certificate of a program with these components, whose circles settle.
fn make_parts(
    alloc: Global,
    meta: &Meta,
    scan: &Scan,
    found: &Components,
    heights: &Solution,
    outer: &[Targets],
    ended: &Solution,
) -> Result<SettlingCertificate, Why>
    requires scan { IsScan meta.now scan.now }
    requires found { AreComponents scan.now.rows found.now }
    requires outer { AreCollected (LeadsOut scan.now.rows found.now.numbers) found.now.sets outer.now }
    requires heights { AreSettled meta.now heights.now }
    requires ended { AreDestroyed meta.now found.now.numbers (leads_of ended.now) }
    ensures { MadeOrReason meta.now result }
{
    // All edges are between nodes.
    edges_join_nodes(meta);
    let Some(made) = sets_of(alloc, meta, scan, found, heights)? else {
        unreachable!();
    };
    let margins = margins_of(alloc, meta, scan, found, &made)?;
    let Some(ranks) = ranks_of(alloc, scan, found, heights, margins.as_slice())? else {
        return Err(Why::TooHigh);
    };
    let Some(steps) = steps_of(alloc, outer, margins.as_slice())? else {
        return Err(Why::TooSteep);
    };
    let bound = just_above(ranks.as_slice());
    let step = greatest_of(steps.as_slice());
    let lines = lines_of(
        alloc,
        meta,
        scan,
        found.numbers.as_slice(),
        ended,
        ranks.as_slice(),
        steps.as_slice(),
    )?;
    Ok(SettlingCertificate {
        bound,
        step,
        lines,
        sets: made.into_sets(),
    })
}
