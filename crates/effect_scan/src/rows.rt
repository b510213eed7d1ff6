//! Lists of numbers, as the ends of edges are kept.

ghost use Rattle.std.specs.Prelude.{◌≡◌, ◌<◌, ℕ, length, replicate, [], IfOk};
ghost use Rattle.std.specs.List.{Contains};
ghost use Rattle.effect_scan.specs.Rows.{row};
ghost use Rattle.effect_scan.specs.code.Adding.{Adds, Joins};

use crate::targets::Targets;
use sqlite_items::{Items, at};
use std::alloc::{AllocError, Global};

/// As many empty rows.
pub fn empty_rows(alloc: Global, count: usize) -> Result<Vec<Targets>, AllocError>
    ensures { IfOk result (λ rows. rows.items ≡ replicate count []) }
{
    let mut rows = Vec::with_capacity(alloc, count)?;
    for _node in 0..count {
        rows.push(Targets::new())?;
    }
    Ok(rows)
}

/// Adds an edge from each of the first numbers to each of the others.
pub fn join(
    alloc: Global,
    rows: &mut [Targets],
    sources: &[usize],
    targets: &[usize],
) -> Result<(), AllocError>
    requires { (a : ℕ) → Contains sources.now a → a < length rows.old }
    ensures { IfOk result (λ _. Adds (Joins sources.now targets.now) rows.old rows.new) }
{
    for source in sources {
        let row = &mut rows[*source];
        row.add_all(alloc, targets)?;
    }
    Ok(())
}

/// The numbers in this row; none past the last one.
pub fn row_at(rows: &[Items<usize>], number: usize) -> &[usize]
    ensures { result.now ≡ row rows.now number }
{
    match at(rows, number) {
        Some(row) => row.as_slice(),
        None => &[],
    }
}

/// The numbers that the edges from the node of this number lead to; none past the last node.
pub fn targets_at(rows: &[Targets], node: usize) -> &[usize]
    ensures { result.now ≡ row rows.now node }
{
    match at(rows, node) {
        Some(row) => row.as_slice(),
        None => &[],
    }
}
