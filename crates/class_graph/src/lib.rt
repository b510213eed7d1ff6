//! What the members of a program's classes may lead to, as a picture: as a graph in the language of Graphviz, or as JSON.
#![tactic(auto)]

ghost use Rattle.std.specs.Prelude.{IfOk, IfErr};
ghost use Rattle.class_graph.specs.Graphs.{Loads, Lacks};

mod dot;
mod drawing;
mod edge;
mod family;
mod fault;
mod json;
mod label;
mod origin;
mod part;

use crate::dot::dot_text;
use crate::drawing::GraphDrawing;
use crate::fault::{GraphPartFault, refused};
use crate::json::json_text;
use crate::origin::Origins;
use class_lang::{Limits, Program};
use diagnostics::OtherPlaces;
pub use fault::GraphFault;
use findings::Levels;
use meta_model::Meta;
pub use part::GraphPart;
use program_commands::load_program;
use program_flaws::{ProgramSource, declarations_of};
use std::alloc::Global;
use verdicts::{Located, ProgramPlaces};

/// How a graph is written.
#[derive(Clone, Copy, Debug, PartialEq, Eq)]
pub enum GraphFormat {
    /// In the language of Graphviz, which `dot` draws.
    Dot,
    /// As one JSON object with its nodes and its edges.
    Json,
}

/// The graph of a program's text, which is read by these limits, of which a part is drawn. The text has whole lines. Where places
/// of the program in another text are given, each member and edge that stands there is told with its place. Errors: the text is
/// refused, or the program that it has (`Refused`); the part names a class or a member that isn't there (`Unknown`); the program
/// has more edges than are drawn (`TooLarge`); `Memory`.
pub fn class_graph(
    alloc: Global,
    limits: Limits,
    program: &[u8],
    part: GraphPart<'_>,
    form: GraphFormat,
    places: Option<&OtherPlaces<'_>>,
) -> Result<String, GraphFault>
    ensures drawn { IfOk result (λ text. Loads limits program.now) }
    ensures lacks { IfErr result (Lacks limits program.now) }
{
    let meta = match load_program(alloc, limits, program) {
        Ok(meta) => meta,
        Err(refusal) => return Err(refused(&refusal)),
    };
    let drawn = match places {
        Some(places) => placed_text(alloc, program, &meta, part, form, places),
        None => drawn_text(alloc, &meta, part, form, None),
    };
    match drawn {
        Ok(text) => Ok(text),
        Err(GraphPartFault::Unknown(sentence)) => Err(GraphFault::Unknown(sentence)),
        Err(GraphPartFault::TooLarge) => Err(GraphFault::TooLarge),
        Err(GraphPartFault::Memory) => Err(GraphFault::Memory),
    }
}

/// The graph of the program that this text is, told with its places in another text.
fn placed_text(
    alloc: Global,
    program: &[u8],
    meta: &Meta,
    part: GraphPart<'_>,
    form: GraphFormat,
    places: &OtherPlaces<'_>,
) -> Result<String, GraphPartFault> {
    let Some(tree) = declarations_of(alloc, program)? else {
        return drawn_text(alloc, meta, part, form, None);
    };
    let found = ProgramPlaces::of(alloc, program)?;
    told_text(alloc, &tree, &found, meta, part, form, places)
}

/// The graph of a program that loads, of whose declarations these are the places, and these those in another text.
fn told_text<'x>(
    alloc: Global,
    program: &'x Program,
    found: &'x ProgramPlaces,
    meta: &'x Meta,
    part: GraphPart<'_>,
    form: GraphFormat,
    places: &'x OtherPlaces<'x>,
) -> Result<String, GraphPartFault> {
    let located = Located {
        source: ProgramSource {
            alloc,
            program,
            meta,
        },
        places: found,
        levels: Levels { changes: &[] },
    };
    drawn_text(alloc, meta, part, form, Some(Origins { located, places }))
}

/// The graph of a program that loads.
fn drawn_text(
    alloc: Global,
    meta: &Meta,
    part: GraphPart<'_>,
    form: GraphFormat,
    origins: Option<Origins<'_>>,
) -> Result<String, GraphPartFault> {
    let drawing = GraphDrawing::of(alloc, meta, part, origins)?;
    let text = match form {
        GraphFormat::Dot => dot_text(alloc, &drawing)?,
        GraphFormat::Json => json_text(alloc, &drawing)?,
    };
    Ok(text)
}
