//! Where members and edges stand in another text, from which a tool wrote the program.

use crate::drawing::GraphDrawing;
use crate::edge::{EdgeCause, NodeEdge};
use diagnostics::{OtherPlace, OtherPlaces, Printed, TextPlace};
use edge_reasons::reason_for;
use effect_scan::Node;
use std::alloc::AllocError;
use verdicts::Located;

/// A program with its places, and what they stand for in the other text.
#[derive(Clone, Copy)]
pub struct Origins<'g> {
    pub located: Located<'g>,
    pub places: &'g OtherPlaces<'g>,
}

impl<'g> Origins<'g> {
    /// What the node's member stands for.
    pub fn node(&self, node: Node) -> Option<&'g OtherPlace<'g>> {
        self.at(self.located.node_place(node))
    }

    /// What that stands for which draws the edge.
    pub fn edge(&self, drawing: &GraphDrawing<'_>, edge: NodeEdge) -> Option<&'g OtherPlace<'g>> {
        if let EdgeCause::Queued(wire, _) = edge.cause {
            return self.at(self.located.places.wire(wire));
        }
        let (from, to) = (drawing.node_of(edge.from)?, drawing.node_of(edge.to)?);
        let reason = reason_for(drawing.meta, from, to)?;
        self.at(self.located.reason_place(reason, from))
    }

    /// What this place of the program stands for.
    fn at(&self, place: Option<TextPlace>) -> Option<&'g OtherPlace<'g>> {
        let TextPlace { line, column } = place?;
        self.places.at(line, column)
    }
}

/// Adds a place as a tip of a picture: its file, line and column, its words and its conditions.
pub fn push_tip(text: &mut String, place: &OtherPlace<'_>) -> Result<(), AllocError> {
    text.push_str(", tooltip=\"")?;
    push_escaped(text, place.file)?;
    let (line, column) = (place.other_line, place.other_column);
    write!(text, ":{line}:{column}: ")?;
    push_escaped(text, place.words)?;
    for condition in place.conditions.as_slice() {
        text.push_str(", ")?;
        push_escaped(text, condition)?;
    }
    text.push_str("\"")
}

/// Adds a place as members of an object of JSON.
pub fn push_members(text: &mut String, place: &OtherPlace<'_>) -> Result<(), AllocError> {
    text.push_str(", \"file\": \"")?;
    push_escaped(text, place.file)?;
    let (line, column) = (place.other_line, place.other_column);
    write!(
        text,
        "\", \"line\": {line}, \"column\": {column}, \"words\": \""
    )?;
    push_escaped(text, place.words)?;
    text.push_str("\", \"conditions\": [")?;
    for (number, condition) in place.conditions.as_slice().iter().enumerate() {
        text.push_str(if number == 0 { "\"" } else { ", \"" })?;
        push_escaped(text, condition)?;
        text.push_str("\"")?;
    }
    text.push_str("]")
}

/// Adds bytes as a person is shown them, with a `\\` in front of each `\\` and `"`, as a quoted text has it.
fn push_escaped(text: &mut String, bytes: &[u8]) -> Result<(), AllocError> {
    let bytes = Printed(bytes);
    let shown = format!(in *text.allocator(); "{bytes}")?;
    for letter in shown.chars() {
        if letter == '"' || letter == '\\' {
            text.push('\\')?;
        }
        text.push(letter)?;
    }
    Ok(())
}
