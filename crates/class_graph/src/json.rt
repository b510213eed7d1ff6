//! A graph as JSON.

use crate::drawing::{CertificateVerdict, DrawnEdge, DrawnNode, GraphDrawing};
use crate::label::{cause_text, class_text, kind_word, member_text};
use crate::origin::push_members;
use std::alloc::{AllocError, Global};

/// One object with the verdict, the nodes and the edges, a line for each of them. Names and types have no byte that a text
/// of JSON has to escape.
pub fn json_text(alloc: Global, drawing: &GraphDrawing<'_>) -> Result<String, AllocError> {
    let mut text = String::new(alloc);
    match drawing.verdict {
        CertificateVerdict::Bound(bound) => writeln!(text, "{{\"bound\": {bound},")?,
        CertificateVerdict::No(reason) => writeln!(text, "{{\"no\": \"{reason}\",")?,
    }
    text.push_str(" \"nodes\": [")?;
    for (place, drawn) in drawing.nodes.as_slice().iter().enumerate() {
        push_node(&mut text, alloc, drawing, drawn, place == 0)?;
    }
    text.push_str("],\n \"edges\": [")?;
    for (place, drawn) in drawing.edges.as_slice().iter().enumerate() {
        push_edge(&mut text, alloc, drawing, drawn, place == 0)?;
    }
    text.push_str("]}\n")?;
    Ok(text)
}

/// Adds what stands between two items of a list.
fn push_comma(text: &mut String, is_first: bool) -> Result<(), AllocError> {
    text.push_str(if is_first { "\n  " } else { ",\n  " })
}

/// Adds a node.
fn push_node(
    text: &mut String,
    alloc: Global,
    drawing: &GraphDrawing<'_>,
    drawn: &DrawnNode,
    is_first: bool,
) -> Result<(), AllocError> {
    let Some(object) = drawing.meta.object(drawn.node.class) else {
        return Ok(());
    };
    push_comma(text, is_first)?;
    let number = drawn.number;
    let class = class_text(alloc, object)?;
    let member = member_text(alloc, drawing.meta, drawn.node)?;
    let kind = kind_word(drawing.meta, drawn.node);
    write!(
        text,
        "{{\"id\": {number}, \"class\": \"{class}\", \"member\": \"{member}\", \"kind\": \"{kind}\""
    )?;
    if let Some(rank) = drawn.rank {
        write!(text, ", \"rank\": {rank}")?;
    }
    if let Some(origins) = &drawing.origins
        && let Some(place) = origins.node(drawn.node)
    {
        push_members(text, place)?;
    }
    push_mark(text, drawn.is_marked)
}

/// Adds an edge.
fn push_edge(
    text: &mut String,
    alloc: Global,
    drawing: &GraphDrawing<'_>,
    drawn: &DrawnEdge,
    is_first: bool,
) -> Result<(), AllocError> {
    push_comma(text, is_first)?;
    let edge = drawn.edge;
    let (from, to) = (edge.from, edge.to);
    let cause = cause_text(alloc, drawing.meta, edge.cause)?;
    write!(
        text,
        "{{\"from\": {from}, \"to\": {to}, \"by\": \"{cause}\""
    )?;
    if edge.is_queued() {
        text.push_str(", \"queued\": true")?;
    }
    if let Some(origins) = &drawing.origins
        && let Some(place) = origins.edge(drawing, edge)
    {
        push_members(text, place)?;
    }
    push_mark(text, drawn.is_marked)
}

/// Adds whether the reason for there being no certificate names this, and the end of the item.
fn push_mark(text: &mut String, is_marked: bool) -> Result<(), AllocError> {
    text.push_str(if is_marked {
        ", \"reason\": true}"
    } else {
        "}"
    })
}
