//! An edge, in words.

ghost use Rattle.std.specs.Prelude.{IfOk, IfSome, IsSome};
ghost use Rattle.effect_scan.specs.Edges.{MayLead};
ghost use Rattle.edge_reasons.specs.Reasons.{Draws};

use crate::names::{class_text, node_text, text_of};
use crate::source::ProgramSource;
use crate::statement::statement_of;
use crate::wire::wire_at;
use edge_reasons::{Reason, reason_for};
use effect_scan::Node;
use std::alloc::AllocError;

/// Adds a line that says what draws the edge from one node to the other, and answers it: none only where there is no edge.
pub fn push_edge(
    text: &mut String,
    source: ProgramSource<'_>,
    from: Node,
    to: Node,
) -> Result<Option<Reason>, AllocError>
    ensures draws { IfOk result (λ told. IfSome told (Draws source.entry.meta.now from to)) }
    ensures some { IfOk result (λ told. MayLead source.entry.meta.now from to → IsSome told) }
{
    let first = node_text(source.alloc, source.meta, from)?;
    let second = node_text(source.alloc, source.meta, to)?;
    write!(text, "  `{first}` leads to `{second}`: ")?;
    let drawn = reason_for(source.meta, from, to);
    if let Some(reason) = drawn {
        push_reason(text, source, reason, from, to)?;
    }
    text.push_str("\n")?;
    Ok(drawn)
}

/// Adds what draws an edge.
fn push_reason(
    text: &mut String,
    source: ProgramSource<'_>,
    reason: Reason,
    from: Node,
    to: Node,
) -> Result<(), AllocError> {
    match reason {
        Reason::Statement(number) => push_statement(text, source, number, from),
        Reason::Native => text.push_str("the native is declared to do so"),
        Reason::Wire(place) => {
            let wire = wire_at(source, place)?;
            write!(text, "`{wire}`")
        }
        Reason::Notify => text.push_str("its `notify` signal"),
        Reason::Binding(place) => push_binding(text, source, place),
        Reason::Deletion => push_deletion(text, source, from, to),
    }
}

/// Adds the statement of this number in the body of the slot that the node is.
fn push_statement(
    text: &mut String,
    source: ProgramSource<'_>,
    number: usize,
    from: Node,
) -> Result<(), AllocError> {
    if let Some((body, numbered)) = statement_of(source, from, number) {
        let statement = body.statement_text(numbered.statement)?;
        write!(text, "its body has `{statement}`")?;
    }
    Ok(())
}

/// Adds the binding at this place.
fn push_binding(
    text: &mut String,
    source: ProgramSource<'_>,
    place: usize,
) -> Result<(), AllocError> {
    if let Some(site) = source.meta.site_at(place) {
        let name = text_of(source.alloc, site.name.bytes())?;
        write!(text, "the binding `{name}` reads it")?;
    }
    Ok(())
}

/// Adds that objects of one class may be deleted with one of the other: as its children, or as the children of what it owns.
fn push_deletion(
    text: &mut String,
    source: ProgramSource<'_>,
    from: Node,
    to: Node,
) -> Result<(), AllocError> {
    if from.class == to.class {
        return text.push_str("each deletion emits it");
    }
    let parent = class_text(source.alloc, source.meta, from.class)?;
    let child = class_text(source.alloc, source.meta, to.class)?;
    if source.meta.owns(from.class, to.class) {
        return write!(
            text,
            "by `owns`, objects of `{child}` are deleted with their parent of `{parent}`"
        );
    }
    write!(
        text,
        "by `owns`, objects of `{child}` may be deleted with one of `{parent}`, which stands further above them than their parent"
    )
}
