//! The longest chain of direct calls, where it is longer than any bound.

use crate::program::search::ProgramSearch;
use crate::program::sentences::{MAY_BE_FALSE, doubted_help};
use crate::program::walks::{marks, set_mark};
use findings::{Finding, JudgedText, Rule, Verdict};
use program_flaws::node_text;
use rank_check::MOST_BOUND;
use std::alloc::AllocError;

/// So many steps of a chain nest one deeper than any bound, and are told.
const MOST_STEPS: usize = MOST_BOUND as usize;

/// Adds the longest chain beside all cycles, where it is longer than any bound.
pub fn gather_chain(search: ProgramSearch<'_>, found: &mut Verdict) -> Result<(), AllocError> {
    let graph = search.graph;
    let mut cyclic = marks(graph.alloc, graph.len(), false)?;
    for component in search.components {
        for node in component.iter() {
            set_mark(&mut cyclic, *node, true);
        }
    }
    if let Some(numbers) = graph.long_chain(cyclic.as_slice(), MOST_STEPS)? {
        if let Some(severity) = found.taken(
            Rule::ChainTooLong,
            search.located.levels.of(Rule::ChainTooLong),
        ) {
            let finding = chain_finding(search, numbers.as_slice())?;
            found.push(severity, finding)?;
        }
    }
    Ok(())
}

/// That the nodes of these numbers are a chain which is too long. Its first steps are told, which nest too deep already.
fn chain_finding(search: ProgramSearch<'_>, numbers: &[usize]) -> Result<Finding, AllocError> {
    let located = search.located;
    let alloc = located.source.alloc;
    let told = numbers
        .get(..MOST_STEPS.saturating_add(1))
        .unwrap_or(numbers);
    let nodes = search.nodes_at(told)?;
    let message = chain_text(search, numbers)?;
    let advice =
        "make a wire on the way `queued`, or let a slot emit a signal that a `queued` wire takes on";
    let help = doubted_help(alloc, advice, MAY_BE_FALSE)?;
    Ok(Finding {
        rule: Rule::ChainTooLong,
        message,
        help,
        text: JudgedText::Program,
        place: nodes.first().and_then(|first| located.node_place(*first)),
        chain: located.steps(nodes.as_slice())?,
    })
}

/// Between which members the chain is, and how deep its calls nest: each of its nodes is active in the one before it.
fn chain_text(search: ProgramSearch<'_>, numbers: &[usize]) -> Result<String, AllocError> {
    let source = search.located.source;
    let alloc = source.alloc;
    let nodes = search.scan.nodes();
    let mut text = String::new(alloc);
    if let (Some(first), Some(last)) = (numbers.first(), numbers.last())
        && let (Some(first), Some(last)) = (nodes.get(*first), nodes.get(*last))
    {
        let begin = node_text(alloc, source.meta, *first)?;
        let end = node_text(alloc, source.meta, *last)?;
        let depth = numbers.len();
        let beside = if search.components.is_empty() {
            ""
        } else {
            " beside cycles"
        };
        write!(
            text,
            "the longest chain of direct calls{beside}, from `{begin}` to `{end}`, nests {depth} deep: at most {MOST_BOUND} may be"
        )?;
        if depth > MOST_STEPS.saturating_add(1) {
            write!(text, "; its first {MOST_STEPS} steps are told")?;
        }
    }
    Ok(text)
}
