//! Edges by name, and lists of those that are accepted.

use crate::finding::ChainStep;
use diagnostics::{Printed, TextPlace};
use std::alloc::{AllocError, Global};
use thiserror::Error;

/// What stands between the two members of an edge.
const ARROW: &str = " -> ";

/// What begins a comment of a list.
const COMMENT: char = '#';

/// The line of a list of members, as there were once.
const MEMBERS: &str = "cycle";

/// That one member may lead to another, both as certificates name them. Two of these are equal where both members are.
#[derive(Debug, Drop, PartialEq, Eq, PartialOrd, Ord)]
pub struct Edge {
    /// `FROM -> TO`
    text: String,
}

impl Edge {
    /// The edge from the one member to the other.
    pub fn of(alloc: Global, from: &str, to: &str) -> Result<Edge, AllocError> {
        let text = format!(in alloc; "{from}{ARROW}{to}")?;
        Ok(Edge { text })
    }

    /// The edge of the step.
    pub fn of_step(alloc: Global, step: &ChainStep) -> Result<Edge, AllocError> {
        Edge::of(alloc, step.from.as_str(), step.to.as_str())
    }

    /// It as a text: `FROM -> TO`.
    pub fn text(&self) -> &str {
        self.text.as_str()
    }
}

/// An edge, and where that stands by which the one member leads to the other.
#[derive(Drop)]
pub struct PlacedEdge {
    /// The edge.
    pub edge: Edge,
    /// Where it is in the program; `None` for what is in no line.
    pub place: Option<TextPlace>,
}

/// Why a list can't be read.
#[derive(Clone, Copy, Debug, PartialEq, Eq, Error)]
pub enum ListFault {
    /// The line of this number, from 1, is no edge.
    #[error("line {0} of the list: this is no edge `MEMBER -> MEMBER`")]
    NoEdge(usize),
    /// The line of this number, from 1, is of a list of members.
    #[error("line {0} of the list: it names members, as older lists did: write it anew with `verdict --accept-all PROGRAM`, which names edges")]
    Members(usize),
    /// The list isn't text in UTF-8.
    #[error("the list isn't text in UTF-8")]
    NoText,
    /// A growth of memory was refused.
    #[error("out of memory")]
    Memory,
}

impl From<AllocError> for ListFault {
    fn from(_: AllocError) -> ListFault {
        ListFault::Memory
    }
}

/// The edges of a list, one a line. What is behind a `#`, blanks around a line and empty lines say nothing.
pub fn read_edges(alloc: Global, list: &[u8]) -> Result<Vec<Edge>, ListFault> {
    let Ok(text) = std::str::from_utf8(list) else {
        return Err(ListFault::NoText);
    };
    let mut edges = Vec::new(alloc);
    for (place, line) in text.lines().enumerate() {
        let number = place.saturating_add(1);
        let line = match line.split_once(COMMENT) {
            Some((before, _)) => before.trim(),
            None => line.trim(),
        };
        if line == MEMBERS {
            return Err(ListFault::Members(number));
        }
        if !line.is_empty() {
            let Some((from, to)) = line.split_once(ARROW) else {
                return Err(ListFault::NoEdge(number));
            };
            push_edge(&mut edges, from.trim(), to.trim())?;
        }
    }
    Ok(edges)
}

/// Adds the edge from the one member to the other.
fn push_edge(edges: &mut Vec<Edge>, from: &str, to: &str) -> Result<(), AllocError> {
    let edge = Edge::of(*edges.allocator(), from, to)?;
    edges.push(edge)?;
    Ok(())
}

/// The edges as a list, which is read as them: those that cycles are on, and those that warnings and notes are about, with their
/// places in the program of this name as comments.
pub fn edge_list(
    alloc: Global,
    program: &[u8],
    lists: [&[PlacedEdge]; 2],
) -> Result<String, AllocError> {
    let mut text = String::from_str(
        alloc,
        "# Edges that are accepted (docs/verdict.md): that the first member may lead to the second one.\n",
    )?;
    let program = Printed(program);
    for placed in lists {
        push_edges(&mut text, &program, placed)?;
    }
    Ok(text)
}

/// Adds a line for each of the edges.
fn push_edges(
    text: &mut String,
    program: &Printed<'_>,
    edges: &[PlacedEdge],
) -> Result<(), AllocError> {
    for placed in edges {
        let edge = placed.edge.text();
        match placed.place {
            Some(TextPlace { line, column }) => writeln!(
                text,
                "{edge}  # {program}:{line}:{column}"
            )?,
            None => writeln!(text, "{edge}")?,
        }
    }
    Ok(())
}
