//! All that is wrong with a program that loads.

use crate::program::chains::gather_chain;
use crate::program::cycles::gather_cycles;
use crate::program::deletions::{Deletion, deletions, gather_deletions};
use crate::program::located::Located;
use crate::program::remarks::{Remarks, add_remarks};
use crate::program::resting::add_settling_cycles;
use crate::program::search::{ProgramGraph, ProgramSearch};
use crate::program::typing_flaws::{gather_types, gather_wires};
use crate::program::walks::DirectedGraph;
use effect_scan::Scan;
use findings::{Edge, Verdict};
use std::alloc::AllocError;

/// Adds what is wrong with the program, and answers what is worth a warning or a note; cycles on the list are counted alone.
pub fn gather_program(
    located: Located<'_>,
    accepted: &[Edge],
    found: &mut Verdict,
) -> Result<Remarks, AllocError> {
    let graph = ProgramGraph::of(located)?;
    let search = graph.search(located);
    let deletions = gather_errors(search, accepted, found)?;
    let mut remarks = Remarks::new(located.source.alloc);
    add_remarks(search, deletions.as_slice(), &mut remarks)?;
    Ok(remarks)
}

/// Adds what is wrong with the program, and nothing else.
pub fn program_errors(located: Located<'_>, found: &mut Verdict) -> Result<(), AllocError> {
    let graph = ProgramGraph::of(located)?;
    gather_errors(graph.search(located), &[], found)?;
    Ok(())
}

/// Adds what is wrong with the program, and answers what deletes objects in it; cycles on the list are counted alone.
fn gather_errors(
    search: ProgramSearch<'_>,
    accepted: &[Edge],
    found: &mut Verdict,
) -> Result<Vec<Deletion>, AllocError> {
    let located = search.located;
    gather_wires(located, found)?;
    gather_types(located, search.scan.nodes(), found)?;
    gather_cycles(search, accepted, found)?;
    let deletions = deletions(search)?;
    gather_deletions(located, deletions.as_slice(), found)?;
    gather_chain(search, found)?;
    Ok(deletions)
}

/// What is worth a warning or a note in a program that has a certificate, whose nodes and edges these are.
pub fn program_remarks(located: Located<'_>, scan: &Scan) -> Result<Remarks, AllocError> {
    let alloc = located.source.alloc;
    let graph = DirectedGraph::of(alloc, scan)?;
    let search = ProgramSearch {
        located,
        scan,
        graph: &graph,
        components: &[],
    };
    let deletions = deletions(search)?;
    let mut remarks = Remarks::new(alloc);
    add_remarks(search, deletions.as_slice(), &mut remarks)?;
    Ok(remarks)
}

/// The same in a program that has this settling certificate: its cycles come to rest, and each is told.
pub fn settled_remarks(located: Located<'_>, certificate: &[u8]) -> Result<Remarks, AllocError> {
    let graph = ProgramGraph::of(located)?;
    let search = graph.search(located);
    let mut remarks = Remarks::new(located.source.alloc);
    add_settling_cycles(search, certificate, &mut remarks)?;
    let deletions = deletions(search)?;
    add_remarks(search, deletions.as_slice(), &mut remarks)?;
    Ok(remarks)
}
