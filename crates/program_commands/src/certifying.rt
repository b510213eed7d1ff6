//! The text of a program's least certificate, whose lines are made and written one by one.

ghost use Rattle.std.specs.Prelude.{length, IfOk};
ghost use Rattle.effect_scan.specs.Nodes.{nodes_of};
ghost use Rattle.effect_scan.specs.Scans.{IsScan};
ghost use Rattle.program_commands.specs.Certifying.{PutsLines, SendsLeast, IsLeastText};
ghost use Rattle.rank_graph.specs.Solutions.{rank_of};
ghost use Rattle.rank_make.specs.Ranked.{IsBoundOf};
ghost use Rattle.rank_make.specs.Solved.{AreLow};

use command_lines::{Output, WriteFault};
use effect_scan::Scan;
use meta_model::Meta;
use rank_make::{Ranks, Solution, line_of};
use std::alloc::{AllocError, Global};
use std::io::Write;

/// The text of the program's least valid certificate, which has this bound. The error is that memory was refused.
pub fn least_text(
    alloc: Global,
    meta: &Meta,
    bound: u32,
    ranks: &Ranks,
) -> Result<Vec<u8>, AllocError>
    requires { IsBoundOf meta.now bound ranks.now }
    ensures { IfOk result (λ text. IsLeastText meta.now text.items) }
{
    let mut text = Vec::new(alloc);
    match send_least(alloc, meta, bound, ranks, &mut text)? {
        Ok(_) => Ok(text),
        Err(_) => Err(AllocError),
    }
}

/// Writes the program's least valid certificate. The error is that memory was refused.
fn send_least<W: Write>(
    alloc: Global,
    meta: &Meta,
    bound: u32,
    ranks: &Ranks,
    w: &mut W,
) -> Result<Result<u8, WriteFault>, AllocError>
    requires { IsBoundOf meta.now bound ranks.now }
    ensures { IfOk result (SendsLeast meta.now (W.contents w.old) (W.contents w.new)) }
{
    let mut output = Output::new(alloc, w);
    output.certificate_head(bound);
    put_lines(alloc, meta, &ranks.scan, &ranks.solution, &mut output)?;
    Ok(output.finish(0))
}

/// Adds the lines of the program's nodes to an output. The error is that memory was refused.
fn put_lines<W: Write>(
    alloc: Global,
    meta: &Meta,
    scan: &Scan,
    solution: &Solution,
    output: &mut Output<'_, W>,
) -> Result<(), AllocError>
    requires scan { IsScan meta.now scan.now }
    requires low { AreLow (length scan.now.nodes) (rank_of solution.now) }
    ensures { IfOk result (λ _.
        PutsLines W.contents meta.now solution.now (length (nodes_of meta.now)) output.old output.new) }
{
    for (number, node) in scan.nodes().iter().enumerate() {
        let line = line_of(alloc, meta, scan, solution, number, *node)?;
        output.node_line(&line);
    }
    Ok(())
}
