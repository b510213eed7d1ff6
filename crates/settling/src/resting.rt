//! Whether what certificates say of sets lets them come to rest.

ghost use Rattle.std.specs.Prelude.{ℕ, ◌≡◌, ◌≢◌, ◌↔◌, ◌+◌, ◌<◌, ◌≤◌, length, slice_get, Some, IsTrue, IfOk, MatchBool};
ghost use Rattle.std.specs.List.{Contains};
ghost use Rattle.effect_scan.specs.Scans.{IsScan};
ghost use Rattle.settling.specs.Valid.{HasNothingElse, AreRounds, IsBounded};
ghost use Rattle.settling.specs.code.ByNumbers.{LeadIn};
ghost use Rattle.settling.specs.code.Standings.{AreStandings};
ghost use Rattle.settling.specs.code.Spans.{cost, IsWithin, StepsFall, HaveRounds, MembersHold, NodeHolds, MemberHolds};

use crate::certificate::{SettlingCertificate, SettlingLine};
use crate::nodes::carries;
use crate::spans::{Span, spans_of};
use crate::standings::Standing;
use effect_scan::{Scan, edges_join_nodes};
use meta_model::Meta;
use rank_check::MOST_BOUND;
use std::alloc::{AllocError, Global};

/// Whether the certificate's bound is above each rank and at most 256, and its step at least each step.
pub fn is_bounded(certificate: &SettlingCertificate) -> bool
    ensures { MatchBool result (IsBounded certificate.now) (IsBounded certificate.now → ⊥) }
{
    if certificate.bound > MOST_BOUND {
        return false;
    }
    for line in certificate.lines.as_slice() {
        if !is_line_bounded(certificate, line) {
            return false;
        }
    }
    true
}

/// Whether the line's rank is below the certificate's bound, and its step no greater than the certificate's.
fn is_line_bounded(certificate: &SettlingCertificate, line: &SettlingLine) -> bool
    ensures { IsTrue result ↔ ((line.now.rank < certificate.now.bound) × (line.now.step ≤ certificate.now.step)) }
{
    line.rank < certificate.bound && line.step <= certificate.step
}

/// Whether each set may come to rest. Its error is that memory was refused.
pub fn sets_rest(
    alloc: Global,
    meta: &Meta,
    scan: &Scan,
    standings: &[Standing],
    certificate: &SettlingCertificate,
) -> Result<bool, AllocError>
    requires scan { IsScan meta.now scan.now }
    requires rest { HasNothingElse meta.now certificate.now }
    requires standings { AreStandings meta.now certificate.now standings.now }
    ensures { IfOk result (λ rest. MatchBool rest (AreRounds meta.now certificate.now)
        (AreRounds meta.now certificate.now → ⊥)) }
{
    // All edges are between nodes, so they are all looked at.
    edges_join_nodes(meta);
    let made = spans_of(alloc, certificate.sets.as_slice(), standings)?;
    let spans = made.as_slice();
    if !have_rounds(spans) {
        return Ok(false);
    }
    Ok(members_hold(meta, scan, standings, spans))
}

/// Whether no round is 0.
fn have_rounds(spans: &[Span]) -> bool
    ensures { MatchBool result (HaveRounds spans.now) (HaveRounds spans.now → ⊥) }
{
    for span in spans {
        if span.round == 0 {
            return false;
        }
    }
    true
}

/// Whether each node of a set is as the others of its set let it be.
fn members_hold(meta: &Meta, scan: &Scan, standings: &[Standing], spans: &[Span]) -> bool
    requires leads { LeadIn meta.now scan.now.rows standings.now }
    requires inside { (n k : ℕ) (s : Standing) → slice_get standings.now n ≡ Some s → s.set ≡ Some k → k < length spans.now }
    ensures { MatchBool result (MembersHold meta.now scan.now.rows standings.now spans.now)
        (MembersHold meta.now scan.now.rows standings.now spans.now → ⊥) }
{
    for (number, standing) in standings.iter().enumerate() {
        if !node_holds(meta, standings, scan.targets(number), spans, *standing) {
            return false;
        }
    }
    true
}

/// Whether this node is, if it is of a set, which leads to those of these numbers.
fn node_holds(
    meta: &Meta,
    standings: &[Standing],
    targets: &[usize],
    spans: &[Span],
    standing: Standing,
) -> bool
    requires targets { (b : ℕ) → Contains targets.now b → b < length standings.now }
    requires inside { (k : ℕ) → standing.set ≡ Some k → k < length spans.now }
    ensures { MatchBool result (NodeHolds meta.now standings.now targets.now spans.now standing)
        (NodeHolds meta.now standings.now targets.now spans.now standing → ⊥) }
{
    match standing.set {
        Some(set) => member_holds(meta, standings, targets, set, spans[set], standing),
        None => true,
    }
}

/// Whether this node of the set at this place is, which leads to those of these numbers.
fn member_holds(
    meta: &Meta,
    standings: &[Standing],
    targets: &[usize],
    set: usize,
    span: Span,
    standing: Standing,
) -> bool
    requires { (b : ℕ) → Contains targets.now b → b < length standings.now }
    ensures { let holds = MemberHolds meta.now standings.now targets.now set span standing in
        MatchBool result holds (holds → ⊥) }
{
    is_within(meta, span, standing)
        && steps_fall(standings, targets, set, cost_of(span), standing.step)
}

/// Whether the node carries one value, has a rank above 0 and near those of the others, and their step, which is as great as a set
/// needs that leads to none outside.
fn is_within(meta: &Meta, span: Span, standing: Standing) -> bool
    ensures { IsTrue result ↔ IsWithin meta.now span standing }
{
    carries(meta, standing.node)
        && standing.rank > 0
        && (standing.rank as u64) < span.rank as u64 + span.round as u64
        && standing.step == span.step
        && cost_of(span) <= standing.step as u128
}

/// Whether the step, which is that of a node of the set at this place, is above those of these nodes by so much, but those of the
/// set.
fn steps_fall(standings: &[Standing], targets: &[usize], set: usize, cost: u128, step: u32) -> bool
    requires inside { (b : ℕ) → Contains targets.now b → b < length standings.now }
    ensures { MatchBool result (StepsFall standings.now targets.now set cost step)
        (StepsFall standings.now targets.now set cost step → ⊥) }
{
    for target in targets {
        let to = standings[*target];
        if !falls_to(to, set, cost, step) {
            return false;
        }
    }
    true
}

/// Whether this node is of the set, or its step is below this one by so much.
fn falls_to(to: Standing, set: usize, cost: u128, step: u32) -> bool
    ensures { IsTrue result ↔ (to.set ≢ Some set → to.step + cost ≤ step) }
{
    to.is_of(set) || is_above(step, to.step, cost)
}

/// Whether the step is above the other one by so much.
fn is_above(step: u32, lower: u32, cost: u128) -> bool
    ensures { IsTrue result ↔ (lower + cost ≤ step) }
{
    cost <= step as u128 && lower as u128 <= step as u128 - cost
}

/// By how much a set with this in common makes activations nest deeper for each object.
fn cost_of(span: Span) -> u128
    ensures { result ≡ cost span }
{
    span.round as u128 * span.most as u128
}
