//! What stands against it that a circle of members comes to rest (docs/settling.md, "Sets that settle").

use crate::names::{node_text, text_of};
use crate::other_value::{OtherSearch, OtherValue};
use crate::source::ProgramSource;
use crate::statement::{BodyContext, body_of};
use edge_reasons::{Reason, reason_for};
use effect_scan::{Member, Node};
use meta_model::{Meta, Statement, Work};
use settling::{carries, hand_on};
use std::alloc::AllocError;

/// What stands against it.
#[derive(Clone, Copy, Debug, PartialEq, Eq)]
pub enum Obstacle {
    /// The node carries no value.
    NoValue(Node),
    /// A way from the one node to the other doesn't hand its value on.
    OtherValue(Node, Node),
    /// On the way from the node back to it no property lies.
    NoProperty(Node),
}

/// What stands against it on the circle of these nodes, of which the first is at both ends.
pub fn obstacle_along(meta: &Meta, nodes: &[Node]) -> Option<Obstacle> {
    for node in nodes {
        if !carries(meta, *node) {
            return Some(Obstacle::NoValue(*node));
        }
    }
    for (from, to) in nodes.iter().zip(nodes.iter().skip(1)) {
        if !hand_on(meta, *from, *to) {
            return Some(Obstacle::OtherValue(*from, *to));
        }
    }
    let first = nodes.first()?;
    if nodes.iter().any(is_property) {
        return None;
    }
    Some(Obstacle::NoProperty(*first))
}

/// What stands against it along an edge, from the one node to the other.
pub fn obstacle_between(meta: &Meta, from: Node, to: Node) -> Option<Obstacle> {
    for node in [from, to] {
        if !carries(meta, node) {
            return Some(Obstacle::NoValue(node));
        }
    }
    if hand_on(meta, from, to) {
        return None;
    }
    Some(Obstacle::OtherValue(from, to))
}

/// Whether the node is a property.
fn is_property(node: &Node) -> bool {
    matches!(node.member, Member::Property(_))
}

/// Why the circle of these nodes, of which the first is at both ends, isn't seen to come to rest, and what would make it: as the
/// rest of a sentence. `None` where nothing stands against it.
pub fn unsettled_text(
    source: ProgramSource<'_>,
    nodes: &[Node],
) -> Result<Option<String>, AllocError> {
    let Some(obstacle) = obstacle_along(source.meta, nodes) else {
        return Ok(None);
    };
    let text = obstacle_text(source, obstacle)?;
    Ok(Some(text))
}

/// What stands against it, and what to write instead.
pub fn obstacle_text(source: ProgramSource<'_>, obstacle: Obstacle) -> Result<String, AllocError> {
    match obstacle {
        Obstacle::NoValue(node) => valueless_text(source, node),
        Obstacle::OtherValue(from, to) => other_value_text(source, from, to),
        Obstacle::NoProperty(node) => {
            let name = node_text(source.alloc, source.meta, node)?;
            format!(in source.alloc;
                "no property lies on the way from `{name}` back to it, where an equal value would end it: keep the value in one"
            )
        }
    }
}

/// Why the node carries no value.
fn valueless_text(source: ProgramSource<'_>, node: Node) -> Result<String, AllocError> {
    let alloc = source.alloc;
    let name = node_text(alloc, source.meta, node)?;
    let Member::Method(method) = node.member else {
        return format!(in alloc;
            "`{name}` is a deletion, which carries no value: write `later` in the place of `delete`"
        );
    };
    let Some(found) = source.meta.method_at(node.class, method) else {
        return Ok(name);
    };
    if let Work::Native(_) = found.work {
        return format!(in alloc;
            "`{name}` is a native, and what it hands on isn't known: put a slot in its place"
        );
    }
    match found.types.len() {
        0 => format!(in alloc;
            "`{name}` has no parameter, and so carries no value: give it the value as its one parameter"
        ),
        count => format!(in alloc;
            "`{name}` has {count} parameters: leave it the one whose value is handed on"
        ),
    }
}

/// Why what leads from the one node to the other doesn't hand its value on.
fn other_value_text(source: ProgramSource<'_>, from: Node, to: Node) -> Result<String, AllocError> {
    let alloc = source.alloc;
    match reason_for(source.meta, from, to) {
        Some(Reason::Statement(_)) => statement_obstacle(source, from, to),
        Some(Reason::Binding(place)) => {
            let bound = node_text(alloc, source.meta, to)?;
            let name = match source.meta.site_at(place) {
                Some(site) => text_of(alloc, site.name.bytes())?,
                None => String::new(alloc),
            };
            format!(in alloc;
                "the binding `{name}` computes the value of `{bound}`: hand it on by a slot"
            )
        }
        _ => {
            let name = node_text(alloc, source.meta, from)?;
            format!(in alloc; "`{name}` hands on another value than its own: hand that on as it is")
        }
    }
}

/// The same of a slot, by its first statement that doesn't.
fn statement_obstacle(
    source: ProgramSource<'_>,
    from: Node,
    to: Node,
) -> Result<String, AllocError> {
    let alloc = source.alloc;
    let name = node_text(alloc, source.meta, from)?;
    let Some((body, statements)) = body_of(source, from) else {
        return Ok(name);
    };
    let search = OtherSearch {
        meta: source.meta,
        class: from.class,
        types: body.types,
        to,
    };
    match search.first_among(statements, false) {
        Some(other) => told_statement(body, name.as_str(), other),
        None => Ok(name),
    }
}

/// What is said of the statement in the body of the slot of this name.
fn told_statement(
    body: BodyContext<'_>,
    name: &str,
    other: OtherValue<'_>,
) -> Result<String, AllocError> {
    let alloc = body.source.alloc;
    let written = body.whole_text(other.statement)?;
    if other.is_grouped {
        return format!(in alloc;
            "`{name}` has `{written}` in a `group`, which notifies later: take it out of that"
        );
    }
    if let Statement::Delete(_) = other.statement {
        return format!(in alloc;
            "`{name}` hands no value on by `{written}`: write `later` in the place of `delete`"
        );
    }
    let parameter = body.parameter_text(0)?;
    format!(in alloc;
        "`{name}` hands on another value than its own, by `{written}`: hand `{parameter}` on as it is"
    )
}
