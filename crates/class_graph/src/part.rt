//! The part of a graph that is drawn.

use crate::edge::Edges;
use crate::fault::GraphPartFault;
use crate::label::node_text;
use diagnostics::{Printed, did_you_mean};
use effect_scan::{Member, Node, Scan};
use meta_model::{DELETE_LATER, Meta, MetaObject, OBJECT_NAME};
use std::alloc::{AllocError, Global};

/// The part of a graph that is asked for.
#[derive(Clone, Copy, Debug)]
pub struct GraphPart<'p> {
    /// The members of these classes alone; of all classes where none is named.
    pub classes: &'p [&'p str],
    /// What this member may lead to alone, at once or by queued wires: `C.m(T,..)`, `C.m`, `C.p` or `~C`.
    pub from: Option<&'p str>,
}

/// Whether each node is drawn, by its number. What every object has of `QObject` is left out where nothing else leads to
/// it or from it.
pub fn drawn(
    alloc: Global,
    meta: &Meta,
    scan: &Scan,
    edges: &Edges,
    part: GraphPart<'_>,
) -> Result<Vec<bool>, GraphPartFault> {
    for class in part.classes {
        if !names_one(meta, class) {
            return Err(unknown_class(alloc, meta, class)?);
        }
    }
    let reached = match part.from {
        Some(name) => Some(reached(alloc, meta, scan, edges, name)?),
        None => None,
    };
    let mut drawn = used(alloc, scan, edges)?;
    for (number, node) in scan.nodes().iter().enumerate() {
        let is_reached = match &reached {
            Some(marks) => is_marked(marks.as_slice(), number),
            None => true,
        };
        if !is_reached || !is_in(meta, *node, part) {
            unmark(&mut drawn, number);
        }
    }
    Ok(drawn)
}

/// Whether the number is among those that are marked.
pub fn is_marked(marks: &[bool], number: usize) -> bool {
    match marks.get(number) {
        Some(is_marked) => *is_marked,
        None => false,
    }
}

/// Whether a class has this name.
fn names_one(meta: &Meta, name: &str) -> bool {
    meta.classes()
        .iter()
        .any(|class: &MetaObject| class.name.bytes() == name.as_bytes())
}

/// Whether the node is one of the classes that are asked for.
fn is_in(meta: &Meta, node: Node, part: GraphPart<'_>) -> bool {
    let Some(class) = meta.object(node.class) else {
        return false;
    };
    part.classes.is_empty()
        || part
            .classes
            .iter()
            .any(|name: &&str| class.name.bytes() == name.as_bytes())
}

/// Whether the node is one that every object has.
fn is_common(node: Node) -> bool {
    match node.member {
        Member::Method(method) => method <= DELETE_LATER,
        Member::Property(property) => property == OBJECT_NAME,
        Member::Destruction => true,
    }
}

/// Which nodes are declared by the program, or have an edge besides those that every object has.
fn used(alloc: Global, scan: &Scan, edges: &Edges) -> Result<Vec<bool>, AllocError> {
    let nodes = scan.nodes();
    let mut used = Vec::new(alloc);
    for node in nodes {
        used.push(!is_common(*node))?;
    }
    for edge in edges.all() {
        mark_ends(&mut used, nodes, edge.from, edge.to);
    }
    for family in edges.families() {
        if let (Some(from), Some(to)) = family.ends(scan) {
            mark_ends(&mut used, nodes, from, to);
        }
    }
    Ok(used)
}

/// Marks both ends of an edge, unless every object has it.
fn mark_ends(marks: &mut Vec<bool>, nodes: &[Node], from: usize, to: usize) {
    if let (Some(first), Some(second)) = (nodes.get(from), nodes.get(to)) {
        let is_every_objects = is_common(*first)
            && is_common(*second)
            && first.class == second.class;
        if !is_every_objects {
            mark(marks, from);
            mark(marks, to);
        }
    }
}

/// Marks the number, if it is one of these, and answers whether it wasn't marked.
fn mark(marks: &mut Vec<bool>, number: usize) -> bool {
    match marks.get_mut(number) {
        Some(is_marked) => {
            let is_new = !*is_marked;
            *is_marked = true;
            is_new
        }
        None => false,
    }
}

/// Takes the mark from the number.
fn unmark(marks: &mut Vec<bool>, number: usize) {
    if let Some(is_marked) = marks.get_mut(number) {
        *is_marked = false;
    }
}

/// Which nodes are reached from the ones of this name, themselves among them.
fn reached(
    alloc: Global,
    meta: &Meta,
    scan: &Scan,
    edges: &Edges,
    name: &str,
) -> Result<Vec<bool>, GraphPartFault> {
    let first = named(alloc, meta, scan, name)?;
    if first.is_empty() {
        return Err(unknown_member(alloc, meta, scan, name)?);
    }
    Ok(reach(alloc, meta, scan, edges, first)?)
}

/// The numbers of the nodes of this name.
fn named(alloc: Global, meta: &Meta, scan: &Scan, name: &str) -> Result<Vec<usize>, AllocError> {
    let mut found = Vec::new(alloc);
    for (number, node) in scan.nodes().iter().enumerate() {
        if is_named(alloc, meta, *node, name)? {
            found.push(number)?;
        }
    }
    Ok(found)
}

/// Which nodes are reached from these.
fn reach(
    alloc: Global,
    meta: &Meta,
    scan: &Scan,
    edges: &Edges,
    first: Vec<usize>,
) -> Result<Vec<bool>, AllocError> {
    let mut marks = Vec::new(alloc);
    for _ in scan.nodes() {
        marks.push(false)?;
    }
    let mut posted = Vec::new(alloc);
    for _ in edges.families() {
        posted.push(false)?;
    }
    for number in first.as_slice() {
        mark(&mut marks, *number);
    }
    let mut waiting = first;
    // Each node waits once at most.
    for _ in 0..scan.nodes().len() {
        let Some(number) = waiting.pop() else {
            break;
        };
        for edge in edges.from(number) {
            if mark(&mut marks, edge.to) {
                waiting.push(edge.to)?;
            }
        }
        let Some(node) = scan.nodes().get(number) else {
            continue;
        };
        for (place, family) in edges.families().iter().enumerate() {
            // What the wires lead to is the same for all that they lead from.
            if family.begins_at(meta, *node) && mark(&mut posted, place) {
                for target in family.targets(alloc, meta, scan)? {
                    if mark(&mut marks, target) {
                        waiting.push(target)?;
                    }
                }
            }
        }
    }
    Ok(marks)
}

/// Whether the node has this name, with its types or without them.
fn is_named(alloc: Global, meta: &Meta, node: Node, name: &str) -> Result<bool, AllocError> {
    let text = node_text(alloc, meta, node)?;
    let text = text.as_str();
    Ok(
        text == name
            || text
                .strip_prefix(name)
                .is_some_and(|rest: &str| rest.starts_with("(")),
    )
}

/// That there is no class of this name.
fn unknown_class(alloc: Global, meta: &Meta, name: &str) -> Result<GraphPartFault, AllocError> {
    let mut names = Vec::new(alloc);
    for class in meta.classes() {
        names.push(class.name.bytes())?;
    }
    unknown(alloc, "class", name, names.as_slice())
}

/// That there is no node of this name.
fn unknown_member(
    alloc: Global,
    meta: &Meta,
    scan: &Scan,
    name: &str,
) -> Result<GraphPartFault, AllocError> {
    let mut texts = Vec::new(alloc);
    for node in scan.nodes() {
        texts.push(node_text(alloc, meta, *node)?)?;
    }
    let mut names = Vec::new(alloc);
    for text in texts.iter() {
        let text: &String = text;
        let named = match text.as_str().split_once('(') {
            Some((front, _)) if !name.contains('(') => front,
            _ => text.as_str(),
        };
        names.push(named.as_bytes())?;
    }
    unknown(alloc, "member", name, names.as_slice())
}

/// That there is nothing of this sort with this name, and which of these may be meant.
fn unknown(
    alloc: Global,
    sort: &str,
    name: &str,
    names: &[&[u8]],
) -> Result<GraphPartFault, AllocError> {
    let shown = Printed(name.as_bytes());
    let mut sentence = format!(in alloc; "the program has no {sort} `{shown}`")?;
    if let Some(guess) = did_you_mean(alloc, name.as_bytes(), names)? {
        write!(&mut sentence, ": {guess}")?;
    }
    Ok(GraphPartFault::Unknown(sentence))
}
