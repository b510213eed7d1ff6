//! A verdict beside a list of accepted edges.

use class_lang::Limits;
use findings::{Edge, EdgeIndex, Levels, PlacedEdge, Verdict};
use std::alloc::{AllocError, Global};
use verdicts::{AcceptedEdges, Texts, verdict};

/// A list of more edges than this is first cut down to those that are there.
const FEW: usize = 1000;

/// The exit status where a text is refused.
const REFUSED: u8 = 2;

/// A verdict, and those of the listed edges that aren't there.
#[derive(Drop)]
pub struct Judged {
    pub found: Verdict,
    pub absent: Vec<Edge>,
}

/// What is judged, and by what.
#[derive(Clone, Copy)]
pub struct JudgingInput<'a> {
    /// The limits by which the program is read.
    pub limits: Limits,
    /// The texts.
    pub texts: Texts<'a>,
    /// How grave the rules are.
    pub levels: Levels<'a>,
    /// Whether warnings and notes on listed edges are left out.
    pub is_baseline: bool,
}

impl JudgingInput<'_> {
    /// The verdict, where these edges are listed.
    fn verdict(&self, alloc: Global, edges: &[Edge]) -> Result<Verdict, AllocError> {
        let listed = AcceptedEdges {
            edges,
            is_baseline: self.is_baseline,
        };
        verdict(alloc, self.limits, self.texts, self.levels, listed)
    }
}

/// The verdict on what is asked, where the edges of the list are accepted.
pub fn judge(
    alloc: Global,
    asked: JudgingInput<'_>,
    edges: Vec<Edge>,
) -> Result<Judged, AllocError> {
    if edges.len() > FEW {
        return judge_by_many(alloc, asked, edges);
    }
    let found = asked.verdict(alloc, edges.as_slice())?;
    let mut absent = Vec::new(alloc);
    for (place, edge) in edges.into_iter().enumerate() {
        if found.absent.contains(&place) {
            absent.push(edge)?;
        }
    }
    Ok(Judged { found, absent })
}

/// The same by a long list, of which only the edges that are there are looked at with the program: each edge of the program is
/// held against each of these.
fn judge_by_many(
    alloc: Global,
    asked: JudgingInput<'_>,
    edges: Vec<Edge>,
) -> Result<Judged, AllocError> {
    let mut edges = edges;
    let all = asked.verdict(alloc, &[])?;
    let mut absent = Vec::new(alloc);
    if all.status == REFUSED {
        return Ok(Judged { found: all, absent });
    }
    let mut names = Vec::new(alloc);
    push_edges(&mut names, all.edges)?;
    push_edges(&mut names, all.remarked)?;
    let there = EdgeIndex::of(alloc, names)?;
    edges.sort()?;
    edges.dedup();
    let mut listed = Vec::new(alloc);
    for edge in edges {
        if there.contains(&edge) {
            listed.push(edge)?;
        } else {
            absent.push(edge)?;
        }
    }
    let found = asked.verdict(alloc, listed.as_slice())?;
    Ok(Judged { found, absent })
}

/// Adds the edges without their places.
fn push_edges(edges: &mut Vec<Edge>, placed: Vec<PlacedEdge>) -> Result<(), AllocError> {
    for one in placed {
        edges.push(one.edge)?;
    }
    Ok(())
}
