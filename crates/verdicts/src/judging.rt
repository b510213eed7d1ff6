//! The verdict on a program and its certificate.

ghost use Rattle.std.specs.Prelude.{◌≡◌, ◌≢◌, ◌<◌, ◌⊎◌, ◌↔◌, [], All, IsTrue, IsFalse, IfOk, MatchOption, count_by};
ghost use Rattle.program_commands.specs.Commands.{CheckComesTo};
ghost use Rattle.program_commands.specs.Outcomes.{outcome_status};
ghost use Rattle.verdicts.specs.Accepted.{is_accepted, IsClean};
ghost use Rattle.verdicts.specs.Settled.{is_cycle, CertifiesOrSettles};
ghost use Rattle.verdicts.specs.Statuses.{HasStatus, IsRefusedAs};

use crate::certificate::gather_certificate;
use crate::judged::judged_finding;
use crate::program::{Located, Remarks, gather_program, program_remarks, settled_remarks};
use crate::refusal::{add_further, refusal_finding};
use class_lang::Limits;
use effect_scan::Scan;
use findings::{Edge, Finding, FindingSeverity, LevelChange, Levels, PlacedEdge, Rule, Verdict};
use meta_model::Meta;
use program_commands::{
    Outcome, Refusal, SettlingOutcome, Why, certify_outcome, certify_settling_outcome,
    check_outcome,
};
use program_flaws::ReadProgram;
use std::alloc::{AllocError, Global};

/// The exit status where no error is found.
const CLEAN: u8 = 0;

/// The exit status where a text is refused.
const REFUSED: u8 = 2;

/// The exit status where errors are found.
const FOUND: u8 = 3;

/// The exit status where memory was wanting.
const UNDONE: u8 = 1;

/// What is judged.
#[derive(Clone, Copy, Debug)]
pub struct Texts<'t> {
    /// The text of a program.
    pub program: &'t [u8],
    /// That of its certificate, if one is given.
    pub certificate: Option<&'t [u8]>,
}

/// What is known, and how far that is told.
#[derive(Clone, Copy, Debug)]
pub struct AcceptedEdges<'l> {
    /// The edges that are accepted on cycles.
    pub edges: &'l [Edge],
    /// Whether warnings and notes that are about one of these edges are left out too.
    pub is_baseline: bool,
}

/// All that is found of a program, which is read by these limits, and its certificate: what refuses a text; and of a program
/// that loads each wire that doesn't fit, each member and binding that isn't typed, one cycle of each set of members that all
/// lead to one another, by each edge, what deletes an object while a slot, a native or a signal of it is active, the longest chain where it is too long,
/// and what is worth a warning or a note; then what the check says of the certificate. Each is as grave as the levels say, and cycles
/// on the list are counted alone. Where no certificate is given and the program has a settling one, its cycles are notes. The exit
/// status is 2 where a text is refused, else 3 where an error is found and 0 where none is. Where the levels are those of the table
/// it is that of `check`, or where no certificate is given that of `certify`, or of `certify --settling` where `certify` names a cycle
/// and that makes a certificate; but 0 where all errors that are found are accepted. Its error is that memory was refused.
pub fn verdict(
    alloc: Global,
    limits: Limits,
    texts: Texts<'_>,
    levels: Levels<'_>,
    listed: AcceptedEdges<'_>,
) -> Result<Verdict, AllocError>
    ensures status { IfOk result (λ verdict. levels.entry.changes.now ≡ [] → (verdict.accepted ≡ 0 ⊎ verdict.status ≢ 0) → HasStatus
        (λ outcome. MatchOption texts.entry.certificate
        (CertifiesOrSettles limits texts.entry.program.now outcome)
        (λ certificate. CheckComesTo limits texts.entry.program.now certificate.now outcome))
        verdict.status) }
    ensures refused { IfOk result (λ verdict. IsRefusedAs
        (λ outcome. MatchOption texts.entry.certificate
        (CertifiesOrSettles limits texts.entry.program.now outcome)
        (λ certificate. CheckComesTo limits texts.entry.program.now certificate.now outcome))
        verdict.status) }
    ensures accepted { IfOk result (λ verdict. verdict.accepted ≡ count_by (is_accepted listed.entry.edges.now) verdict.edges.items) }
    ensures clean { IfOk result (λ verdict. verdict.status ≡ 0 → IsClean levels.entry.changes.now verdict) }
    ensures found { IfOk result (λ verdict. verdict.status ≢ 0 → verdict.errors.items ≢ []) }
{
    let judged = outcome(alloc, limits, texts);
    match judged.status() {
        UNDONE => Err(AllocError),
        CLEAN => remark(alloc, texts, levels, listed, &judged),
        _ => search(alloc, limits, texts, levels, listed, &judged),
    }
}

/// What is worth a warning or a note in the program of these texts, of which this is what `check` or `certify` answers: that
/// nothing is wrong, so that it has no cycles.
fn remark(
    alloc: Global,
    texts: Texts<'_>,
    levels: Levels<'_>,
    listed: AcceptedEdges<'_>,
    judged: &Outcome,
) -> Result<Verdict, AllocError>
    ensures status { IfOk result (λ verdict. levels.entry.changes.now ≡ [] → verdict.status ≡ 0) }
    ensures refused { IfOk result (λ verdict. verdict.status ≢ 2) }
    ensures none { IfOk result (λ verdict. verdict.edges.items ≡ []) }
    ensures accepted { IfOk result (λ verdict. verdict.accepted ≡ 0) }
    ensures clean { IfOk result (λ verdict. verdict.status ≡ 0 → IsClean levels.entry.changes.now verdict) }
    ensures found { IfOk result (λ verdict. verdict.status ≢ 0 → verdict.errors.items ≢ []) }
{
    let remarks = certified_remarks(alloc, texts, levels, judged)?;
    let mut found = Verdict::new(alloc, CLEAN);
    add_remarks(levels, listed, remarks, &mut found)?;
    found.edges = Vec::new(alloc);
    found.accepted = 0;
    found.bound = 0;
    found.absent = absent(alloc, &found, listed.edges)?;
    found.status = CLEAN;
    if found.errors.is_empty() {
        // Errors are counted behind the first hundred alone.
        found.more_errors = 0;
        return Ok(found);
    }
    found.status = FOUND;
    Ok(found)
}

/// What is worth a warning or a note in a program of which nothing is wrong. Most have nothing of that kind, so the text is read
/// for places and names only where something is found without them. (A slot that runs an event loop and is led back to, which
/// a comment of the text says, is on a cycle through an event loop, and so among what is found.)
fn certified_remarks(
    alloc: Global,
    texts: Texts<'_>,
    levels: Levels<'_>,
    judged: &Outcome,
) -> Result<Remarks, AllocError> {
    let (meta, scan) = match judged {
        Outcome::Certificate(certified) => (certified.meta(), &certified.ranks().scan),
        Outcome::Valid(checked) => (checked.meta(), checked.scan()),
        Outcome::Settling(SettlingOutcome::Certificate(meta, certificate)) => {
            return settling_remarks(alloc, texts.program, meta, certificate.as_slice(), levels);
        }
        _ => return Ok(Remarks::new(alloc)),
    };
    let found = remarks_by(alloc, b"", meta, scan, levels)?;
    if found.is_empty() {
        return Ok(found);
    }
    remarks_by(alloc, texts.program, meta, scan, levels)
}

/// What is worth a warning or a note in the program of this text, which has this settling certificate.
fn settling_remarks(
    alloc: Global,
    text: &[u8],
    meta: &Meta,
    certificate: &[u8],
    levels: Levels<'_>,
) -> Result<Remarks, AllocError> {
    let Some(read) = ReadProgram::of(alloc, text)? else {
        return Ok(Remarks::new(alloc));
    };
    let located = Located::of(alloc, &read, meta, levels);
    settled_remarks(located, certificate)
}

/// What is worth a warning or a note in the program of these nodes and edges, with the places and names that this text has.
fn remarks_by(
    alloc: Global,
    text: &[u8],
    meta: &Meta,
    scan: &Scan,
    levels: Levels<'_>,
) -> Result<Remarks, AllocError> {
    let Some(read) = ReadProgram::of(alloc, text)? else {
        return Ok(Remarks::new(alloc));
    };
    let located = Located::of(alloc, &read, meta, levels);
    program_remarks(located, scan)
}

/// Adds these findings, which are no errors but where that is asked for; those that the list has are left out where they are to.
fn add_remarks(
    levels: Levels<'_>,
    listed: AcceptedEdges<'_>,
    remarks: Remarks,
    found: &mut Verdict,
) -> Result<(), AllocError>
    ensures { levels.entry.changes.now ≡ [] → found.new.errors ≡ found.old.errors }
{
    let Remarks {
        findings,
        untold,
        cut,
    } = remarks;
    for remark in findings {
        add_remark(levels, listed, remark, found)?;
    }
    count_untold(levels, untold.as_slice(), found);
    found.is_least |= cut
        .iter()
        .any(|rule: &Rule| levels.of_remark(*rule).is_some());
    Ok(())
}

/// Counts findings of these rules that aren't looked for.
fn count_untold(levels: Levels<'_>, rules: &[Rule], found: &mut Verdict)
    ensures { found.new.errors ≡ found.old.errors }
{
    for rule in rules {
        found.count(levels.of_remark(*rule));
    }
}

/// Adds the finding, which is no error but where that is asked for.
fn add_remark(
    levels: Levels<'_>,
    listed: AcceptedEdges<'_>,
    remark: Finding,
    found: &mut Verdict,
) -> Result<(), AllocError>
    ensures { levels.entry.changes.now ≡ [] → found.new.errors ≡ found.old.errors }
{
    let is_known = note_edge(&remark, listed, &mut found.remarked)?;
    if is_known {
        return Ok(());
    }
    match found.taken(remark.rule, levels.of_remark(remark.rule)) {
        Some(severity) => found.push(severity, remark),
        None => Ok(()),
    }
}

/// Adds the edge that the finding is about, if it is about one, and answers whether it is left out for it.
fn note_edge(
    remark: &Finding,
    listed: AcceptedEdges<'_>,
    edges: &mut Vec<PlacedEdge>,
) -> Result<bool, AllocError> {
    let Some(step) = remark.edge() else {
        return Ok(false);
    };
    let edge = Edge::of_step(*edges.allocator(), step)?;
    let is_known = listed.is_baseline && listed.edges.contains(&edge);
    edges.push(PlacedEdge {
        edge,
        place: step.place,
    })?;
    Ok(is_known)
}

/// What is wrong with the texts, of which this is what `check` or `certify` answers. The exit status is that one's, but 0
/// where no error is found that isn't accepted.
#[tactic(auto, using(crate::proofs::Told::not_empty))]
fn search(
    alloc: Global,
    limits: Limits,
    texts: Texts<'_>,
    levels: Levels<'_>,
    listed: AcceptedEdges<'_>,
    judged: &Outcome,
) -> Result<Verdict, AllocError>
    requires { outcome_status judged.now ≢ 0 }
    ensures status { IfOk result (λ verdict. levels.entry.changes.now ≡ [] → (verdict.accepted ≡ 0 ⊎ verdict.status ≢ 0) → verdict.status ≡ outcome_status judged.now) }
    ensures refused { IfOk result (λ verdict. outcome_status judged.now ≡ 2 ↔ verdict.status ≡ 2) }
    ensures accepted { IfOk result (λ verdict. verdict.accepted ≡ count_by (is_accepted listed.entry.edges.now) verdict.edges.items) }
    ensures clean { IfOk result (λ verdict. verdict.status ≡ 0 → IsClean levels.entry.changes.now verdict) }
    ensures found { IfOk result (λ verdict. verdict.status ≢ 0 → verdict.errors.items ≢ []) }
{
    let status = judged.status();
    let mut found = Verdict::new(alloc, status);
    gather(alloc, limits, texts, levels, listed, &mut found)?;
    found.accepted = count_accepted(found.edges.as_slice(), listed.edges);
    if status != REFUSED && is_clean(levels, &found) {
        found.status = CLEAN;
        return Ok(found);
    }
    found.status = status;
    if !found.errors.is_empty() {
        return Ok(found);
    }
    let finding = judged_finding(alloc, judged)?;
    found.errors.push(finding)?;
    Ok(found)
}

/// The places of those edges on the list that are neither on a cycle nor what a warning or a note is about.
fn absent(alloc: Global, found: &Verdict, accepted: &[Edge]) -> Result<Vec<usize>, AllocError> {
    let mut absent = Vec::new(alloc);
    for (place, edge) in accepted.iter().enumerate() {
        let is_there = is_among(found.edges.as_slice(), edge)
            || is_among(found.remarked.as_slice(), edge);
        if !is_there {
            absent.push(place)?;
        }
    }
    Ok(absent)
}

/// Whether the edge is one of these.
fn is_among(edges: &[PlacedEdge], edge: &Edge) -> bool {
    edges.iter().any(|placed: &PlacedEdge| placed.edge == *edge)
}

/// How many of the edges are on the list.
fn count_accepted(edges: &[PlacedEdge], accepted: &[Edge]) -> usize
    ensures { result ≡ count_by (is_accepted accepted.now) edges.now }
{
    edges
        .iter()
        .filter(|placed| accepted.contains(&placed.edge))
        .count()
}

/// Whether no error is found, but where something is accepted or levels were changed.
fn is_clean(levels: Levels<'_>, found: &Verdict) -> bool
    ensures clean { IsTrue result → IsClean levels.entry.changes.now found.now }
    ensures reason { IsTrue result → levels.entry.changes.now ≡ [] → 0 < found.now.accepted }
{
    let all_accepted = found.accepted == found.edges.len() && found.bound == 0;
    let is_asked = found.accepted > 0 || !levels.changes.is_empty();
    is_asked
        && (all_accepted || is_changed(levels.changes, Rule::Cycle))
        && found.errors.is_empty()
        && found.more_errors == 0
}

/// Whether one of the changes is of the rule.
fn is_changed(changes: &[LevelChange], rule: Rule) -> bool
    ensures { IsTrue result → ¬ All (λ change. change.rule ≢ rule) changes.now }
{
    for change in changes {
        if change.rule == rule {
            return true;
        }
    }
    false
}

/// What `check` comes to; where no certificate is given `certify`, or `certify --settling` where that makes one.
fn outcome(alloc: Global, limits: Limits, texts: Texts<'_>) -> Outcome
    ensures { MatchOption texts.entry.certificate
        (CertifiesOrSettles limits texts.entry.program.now result)
        (λ certificate. CheckComesTo limits texts.entry.program.now certificate.now result) }
{
    match texts.certificate {
        Some(certificate) => check_outcome(alloc, limits, texts.program, certificate),
        None => certificate_outcome(alloc, limits, texts.program),
    }
}

/// What `certify` comes to; but where that is a cycle what `certify --settling` does, unless that has a reason too.
fn certificate_outcome(alloc: Global, limits: Limits, program: &[u8]) -> Outcome
    ensures { CertifiesOrSettles limits program.now result }
{
    let certified = certify_outcome(alloc, limits, program);
    if !is_cycle(&certified) {
        return certified;
    }
    let settled = certify_settling_outcome(alloc, limits, program);
    if settled.status() == FOUND {
        certified
    } else {
        settled
    }
}

/// Whether a cycle is why no certificate was made.
fn is_cycle(outcome: &Outcome) -> bool
    ensures { result ≡ is_cycle outcome.now }
{
    match outcome {
        Outcome::Uncertified(_, Why::Cycle(_)) => true,
        _ => false,
    }
}

/// Adds what is wrong.
fn gather(
    alloc: Global,
    limits: Limits,
    texts: Texts<'_>,
    levels: Levels<'_>,
    listed: AcceptedEdges<'_>,
    found: &mut Verdict,
) -> Result<(), AllocError> {
    let (read, meta) = match load(alloc, limits, texts.program) {
        Ok(loaded) => loaded,
        Err(refusal) => {
            let finding = refusal_finding(alloc, limits, texts.program, &refusal)?;
            found.push(FindingSeverity::Error, finding)?;
            return add_further(alloc, texts.program, &refusal, found);
        }
    };
    let located = Located::of(alloc, &read, &meta, levels);
    let remarks = gather_program(located, listed.edges, found)?;
    add_remarks(levels, listed, remarks, found)?;
    if let Some(certificate) = texts.certificate {
        gather_certificate(located, certificate, found)?;
    }
    found.absent = absent(alloc, found, listed.edges)?;
    Ok(())
}

/// What is read of the text, and the same with its names resolved.
fn load(alloc: Global, limits: Limits, text: &[u8]) -> Result<(ReadProgram, Meta), Refusal> {
    let read = ReadProgram::within(alloc, limits, text)?;
    let meta = meta_objects::load(alloc, &read.program)?;
    Ok((read, meta))
}
