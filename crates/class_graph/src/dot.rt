//! A graph in the language of Graphviz.

use crate::drawing::{CertificateVerdict, DrawnEdge, DrawnNode, GraphDrawing};
use crate::label::{cause_text, class_text, kind_word, member_text};
use crate::origin::push_tip;
use std::alloc::{AllocError, Global};

/// The graph, a box for each class: the way to the reason why there is no certificate is red, and queued wires are dashed.
/// Names and types have no byte that a quoted text of the language has to escape.
pub fn dot_text(alloc: Global, drawing: &GraphDrawing<'_>) -> Result<String, AllocError> {
    let mut text = String::new(alloc);
    text.push_str("digraph classes {\n")?;
    push_verdict(&mut text, drawing.verdict)?;
    text.push_str(
        "  rankdir=LR;\n  node [shape=box, style=rounded, fontname=\"sans-serif\", fontsize=11];\n",
    )?;
    text.push_str("  edge [fontname=\"sans-serif\", fontsize=9];\n")?;
    push_classes(&mut text, alloc, drawing)?;
    for edge in drawing.edges.as_slice() {
        push_edge(&mut text, alloc, drawing, edge)?;
    }
    text.push_str("}\n")?;
    Ok(text)
}

/// Adds a title that says whether there is a certificate.
fn push_verdict(text: &mut String, verdict: CertificateVerdict) -> Result<(), AllocError> {
    match verdict {
        CertificateVerdict::Bound(bound) => {
            writeln!(text, "  label=\"a certificate with bound {bound}\";")
        }
        CertificateVerdict::No(reason) => writeln!(text, "  label=\"no certificate: {reason}\";"),
    }
}

/// Adds a box for each class, with the nodes of its objects.
fn push_classes(
    text: &mut String,
    alloc: Global,
    drawing: &GraphDrawing<'_>,
) -> Result<(), AllocError> {
    let mut last: Option<usize> = None;
    for drawn in drawing.nodes.as_slice() {
        if last != Some(drawn.node.class) {
            push_class(text, alloc, drawing, drawn.node.class, last.is_some())?;
            last = Some(drawn.node.class);
        }
        push_node(text, alloc, drawing, drawn)?;
    }
    if last.is_some() {
        text.push_str("  }\n")?;
    }
    Ok(())
}

/// Adds the beginning of a class's box, behind the end of the one before it.
fn push_class(
    text: &mut String,
    alloc: Global,
    drawing: &GraphDrawing<'_>,
    class: usize,
    is_behind: bool,
) -> Result<(), AllocError> {
    if is_behind {
        text.push_str("  }\n")?;
    }
    if let Some(object) = drawing.meta.object(class) {
        let name = class_text(alloc, object)?;
        writeln!(text, "  subgraph \"cluster_{name}\" {{")?;
        writeln!(text, "    label=\"{name}\";")?;
    }
    Ok(())
}

/// Adds a node: its member, and its rank in the line below.
fn push_node(
    text: &mut String,
    alloc: Global,
    drawing: &GraphDrawing<'_>,
    drawn: &DrawnNode,
) -> Result<(), AllocError> {
    let number = drawn.number;
    let member = member_text(alloc, drawing.meta, drawn.node)?;
    write!(text, "    n{number} [label=\"{member}")?;
    if let Some(rank) = drawn.rank {
        write!(text, "\\nrank {rank}")?;
    }
    text.push_str("\"")?;
    match kind_word(drawing.meta, drawn.node) {
        "property" => text.push_str(", shape=ellipse")?,
        "destruction" => text.push_str(", shape=octagon")?,
        _ => {}
    }
    if drawn.is_marked {
        text.push_str(", color=red")?;
    }
    if let Some(origins) = &drawing.origins
        && let Some(place) = origins.node(drawn.node)
    {
        push_tip(text, place)?;
    }
    text.push_str("];\n")
}

/// Adds an edge.
fn push_edge(
    text: &mut String,
    alloc: Global,
    drawing: &GraphDrawing<'_>,
    drawn: &DrawnEdge,
) -> Result<(), AllocError> {
    let edge = drawn.edge;
    let label = cause_text(alloc, drawing.meta, edge.cause)?;
    let (from, to) = (edge.from, edge.to);
    write!(text, "  n{from} -> n{to} [label=\"{label}\"")?;
    if edge.is_queued() {
        text.push_str(", style=dashed")?;
    }
    if drawn.is_marked {
        text.push_str(", color=red, fontcolor=red, penwidth=2")?;
    }
    if let Some(origins) = &drawing.origins
        && let Some(place) = origins.edge(drawing, edge)
    {
        push_tip(text, place)?;
    }
    text.push_str("];\n")
}
