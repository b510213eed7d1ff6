//! Cycles that go through an event loop, and slots that run one.

use crate::program::posts::PostGraph;
use crate::program::remarks::Remarks;
use crate::program::search::ProgramSearch;
use crate::program::walks::{components, marks};
use effect_scan::{Member, Node};
use findings::{ChainStep, Finding, JudgedText, Rule, TextPlace};
use program_flaws::node_text;
use std::alloc::AllocError;
use std::collections::BTreeSet;

/// So many cycles of one strongly connected component are told.
const MOST_CYCLES: usize = 10;

/// Of so many cycles the steps are looked for: no more findings of one severity are reported.
const MOST_SHOWN: usize = 100;

/// Adds cycles on which something is posted: for each that posts a shortest one by it, unless it is on one before.
pub fn add_queued_cycles(
    search: ProgramSearch<'_>,
    posts: &PostGraph,
    remarks: &mut Remarks,
) -> Result<(), AllocError> {
    let mut shown = 0usize;
    for component in components(&posts.graph)? {
        add_turned(search, posts, component.as_slice(), &mut shown, remarks)?;
    }
    Ok(())
}

/// Adds those of a strongly connected component.
fn add_turned(
    search: ProgramSearch<'_>,
    posts: &PostGraph,
    component: &[usize],
    shown: &mut usize,
    remarks: &mut Remarks,
) -> Result<(), AllocError> {
    let mut passed: BTreeSet<usize> = BTreeSet::new(posts.graph.alloc);
    let mut told = 0usize;
    for number in component {
        if posts.post(*number).is_none() || passed.contains(number) {
            continue;
        }
        if told == MOST_CYCLES {
            remarks.cut.push(Rule::QueuedCycle)?;
            return Ok(());
        }
        if *shown == MOST_SHOWN {
            return leave(posts, component, remarks);
        }
        told = told.saturating_add(1);
        *shown = shown.saturating_add(1);
        let numbers = turned(posts, *number, component)?;
        for inner in numbers.iter() {
            passed.insert(*inner)?;
        }
        let finding = queued_cycle(search, posts, numbers.as_slice())?;
        remarks.findings.push(finding)?;
    }
    Ok(())
}

/// Counts a cycle of this component that isn't looked for.
fn leave(posts: &PostGraph, component: &[usize], remarks: &mut Remarks) -> Result<(), AllocError> {
    remarks.untold.push(Rule::QueuedCycle)?;
    let posting = component
        .iter()
        .filter(|number| posts.post(**number).is_some());
    if posting.count() > 1 {
        remarks.cut.push(Rule::QueuedCycle)?;
    }
    Ok(())
}

/// A shortest cycle by the node that posts, from the node before it on.
fn turned(posts: &PostGraph, post: usize, component: &[usize]) -> Result<Vec<usize>, AllocError> {
    let cycle = posts.graph.cycle_through(post, component)?;
    let mut numbers = Vec::new(posts.graph.alloc);
    if let [.., last, _] = cycle.as_slice() {
        numbers.push(*last)?;
        let rest = cycle.len().saturating_sub(1);
        for number in cycle.iter().take(rest) {
            numbers.push(*number)?;
        }
    }
    Ok(numbers)
}

/// That the nodes are a cycle on which something is posted first.
fn queued_cycle(
    search: ProgramSearch<'_>,
    posts: &PostGraph,
    numbers: &[usize],
) -> Result<Finding, AllocError> {
    let located = search.located;
    let alloc = located.source.alloc;
    let chain = posts.steps(search, numbers)?;
    let mut message = String::new(alloc);
    if let Some(step) = chain.first() {
        let name = step.from.as_str();
        write!(
            message,
            "`{name}` may lead back to itself through an event loop, and so go on for as long as that runs"
        )?;
    }
    let place = chain.first().and_then(|step: &ChainStep| step.place);
    remark(search, Rule::QueuedCycle, message, place, chain)
}

/// A finding with the help of its rule.
pub fn remark(
    search: ProgramSearch<'_>,
    rule: Rule,
    message: String,
    place: Option<TextPlace>,
    chain: Vec<ChainStep>,
) -> Result<Finding, AllocError> {
    Ok(Finding {
        rule,
        message,
        help: Some(String::from_str(search.located.source.alloc, rule.help())?),
        text: JudgedText::Program,
        place,
        chain,
    })
}

/// Adds the slots that run an event loop, in which a posted call leads back to them.
pub fn add_re_entries(
    search: ProgramSearch<'_>,
    posts: &PostGraph,
    remarks: &mut Vec<Finding>,
) -> Result<(), AllocError> {
    let meta = search.located.source.meta;
    for class in 1..meta.classes().len() {
        for method in meta.method_offset(class)..meta.method_count(class) {
            let member = Member::Method(method);
            let node = Node { class, member };
            if search.located.is_modal(node)
                && let Some(number) = search.scan.number(node)
                && let Some(way) = way_back(search, posts, number)?
            {
                let alloc = search.located.source.alloc;
                let name = node_text(alloc, meta, node)?;
                let message = format!(in alloc;
                    "`{name}` runs an event loop, in which a posted call may lead back to it"
                )?;
                let chain = posts.steps(search, way.as_slice())?;
                let place = search.located.node_place(node);
                let finding = remark(search, Rule::ReEntry, message, place, chain)?;
                remarks.push(finding)?;
            }
        }
    }
    Ok(())
}

/// A way from the slot at once to what posts, and from there back to it.
fn way_back(
    search: ProgramSearch<'_>,
    posts: &PostGraph,
    slot: usize,
) -> Result<Option<Vec<usize>>, AllocError> {
    let alloc = posts.graph.alloc;
    let none = marks(alloc, posts.graph.len(), false)?;
    let back = posts.graph.ways_to(&[slot], none.as_slice())?;
    let mut sources = Vec::new(alloc);
    for post in posts.numbers() {
        if back.at(post).is_some() {
            for source in posts.graph.before(post) {
                sources.push(*source)?;
            }
        }
    }
    let there = search.graph.ways_to(sources.as_slice(), none.as_slice())?;
    let Some(hop) = there.at(slot) else {
        return Ok(None);
    };
    let mut way = there.way(alloc, slot, hop.left)?;
    let mut nearest: Option<(usize, usize)> = None;
    if let Some(source) = way.last() {
        for target in posts.graph.after(*source) {
            if posts.post(*target).is_some()
                && let Some(hop) = back.at(*target)
            {
                match nearest {
                    Some((left, _)) if left <= hop.left => {}
                    _ => nearest = Some((hop.left, *target)),
                }
            }
        }
    }
    let Some((left, post)) = nearest else {
        return Ok(None);
    };
    let mut rest = back.way(alloc, post, left)?;
    way.append(&mut rest)?;
    Ok(Some(way))
}
