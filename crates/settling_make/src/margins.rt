//! What the components of a program ask of ranks and steps.

ghost use Rattle.std.specs.Prelude.{◌≡◌, ◌<◌, ◌*◌, ℕ, length, slice_get, Some, None, IfOk, MatchOption};
ghost use Rattle.effect_scan.specs.Scans.{IsScan};
ghost use Rattle.rank_check.specs.Entries.{place_at};
ghost use Rattle.settling.specs.code.Spans.{cost};
ghost use Rattle.settling_make.specs.Components.{AreComponents};
ghost use Rattle.settling_make.specs.Fits.{no_margin};
ghost use Rattle.settling_make.specs.Margins.{AreMarginsOf, ArePlacedTo};
ghost use Rattle.settling_make.specs.Sets.{AreSetsOf};

use crate::components::Components;
use crate::margin::Margin;
use crate::sets::Sets;
use effect_scan::Scan;
use meta_model::Meta;
use settling::{Span, Standing, spans_of};
use sqlite_items::{Items, at};
use std::alloc::{AllocError, Global};

/// For each component of a program with this scan what it asks, where its sets are these. Takes time linear in the nodes. The error is
/// that memory was refused.
pub fn margins_of(
    alloc: Global,
    meta: &Meta,
    scan: &Scan,
    found: &Components,
    made: &Sets,
) -> Result<Items<Margin>, AllocError>
    requires scan { IsScan meta.now scan.now }
    requires found { AreComponents scan.now.rows found.now }
    requires made { (height : ℕ → ℕ) × AreSetsOf meta.now scan.now.rows found.now height made.now }
    ensures { IfOk result (AreMarginsOf meta.now found.now made.now) }
{
    // Names are those of one member.
    let _classes = meta.classes();
    let standings = placed(alloc, scan, found, made)?;
    let spans = spans_of(alloc, made.sets.as_slice(), standings.as_slice())?;
    let mut margins = Items::new(alloc);
    for place in made.places.as_slice() {
        let margin = match place {
            Some(set) => margin_with(spans.as_slice()[*set]),
            None => no_set(),
        };
        margins.push(margin)?;
    }
    Ok(margins)
}

/// Each node with the place of its component's set, if that is one. The error is that memory was refused.
fn placed(
    alloc: Global,
    scan: &Scan,
    found: &Components,
    made: &Sets,
) -> Result<Items<Standing>, AllocError>
    ensures { IfOk result (ArePlacedTo scan.now.nodes found.now.numbers made.now.places (length scan.now.nodes)) }
{
    let mut standings = Items::new(alloc);
    for (number, node) in scan.nodes().iter().enumerate() {
        let set = set_of(made, found.number(number));
        standings.push(Standing {
            node: *node,
            rank: 0,
            step: 0,
            set,
        })?;
    }
    Ok(standings)
}

/// The place of the component's set, if it is one.
fn set_of(made: &Sets, component: usize) -> Option<usize>
    ensures { result ≡ place_at made.now.places component }
{
    match at(made.places.as_slice(), component) {
        Some(place) => *place,
        None => None,
    }
}

/// What a set asks whose nodes have this in common.
fn margin_with(span: Span) -> Margin
    ensures least { result.least ≡ 1 }
    ensures round { result.round ≡ span.round }
    ensures cost { result.cost ≡ cost span }
{
    Margin {
        least: 1,
        round: span.round,
        cost: span.round as u128 * span.most as u128,
    }
}

/// What a component asks that is no set.
fn no_set() -> Margin
    ensures { result ≡ no_margin }
{
    Margin {
        least: 0,
        round: 1,
        cost: 0,
    }
}
