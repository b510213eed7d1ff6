//! Objects that may die while a call is posted to them.

use crate::program::posts::{Post, PostGraph, families, step};
use crate::program::search::ProgramSearch;
use crate::program::turns::remark;
use basic_types::Kind;
use edge_reasons::{Reason, reason_for};
use effect_scan::{Member, Node, named, row_at};
use findings::{Finding, Rule};
use meta_model::{DELETE_LATER, QOBJECT};
use program_flaws::{class_text, node_text};
use std::alloc::AllocError;
use std::collections::BTreeSet;

/// For each class the first queued wire that posts calls to its objects, by its place.
#[derive(Drop)]
struct Receivers {
    wires: Vec<Option<usize>>,
}

impl Receivers {
    /// Those of the program.
    fn of(search: ProgramSearch<'_>) -> Result<Receivers, AllocError> {
        let alloc = search.graph.alloc;
        let meta = search.located.source.meta;
        let below = families(alloc, meta)?;
        let mut wires: Vec<Option<usize>> = Vec::new(alloc);
        for _ in meta.classes() {
            wires.push(None)?;
        }
        for (place, wire) in meta.wires().iter().enumerate() {
            if wire.kind == Kind::Queued
                && let Some(family) = below.get(wire.receiver)
            {
                for class in family.iter() {
                    if let Some(first) = wires.get_mut(*class)
                        && first.is_none()
                    {
                        *first = Some(place);
                    }
                }
            }
        }
        Ok(Receivers { wires })
    }

    /// The first wire to objects that may die with one of the class.
    fn wire_to(&self, search: ProgramSearch<'_>, class: usize) -> Option<usize> {
        for other in row_at(search.scan.destroys(), class) {
            if let Some(wire) = self.wires.get(*other).copied().flatten() {
                return Some(wire);
            }
        }
        None
    }
}

/// What deletes: the number of a node, and its statement, which is a `later` or not.
#[derive(Clone, Copy, Debug, PartialEq, Eq)]
struct Deleting {
    node: usize,
    statement: usize,
    is_later: bool,
}

/// Adds what deletes an object to which a call may be posted.
pub fn add_dropped_calls(
    search: ProgramSearch<'_>,
    posts: &PostGraph,
    remarks: &mut Vec<Finding>,
) -> Result<(), AllocError> {
    let receivers = Receivers::of(search)?;
    let mut told: BTreeSet<(usize, usize, usize)> = BTreeSet::new(search.graph.alloc);
    for (number, node) in search.scan.nodes().iter().enumerate() {
        if node.member == Member::Destruction
            && let Some(wire) = receivers.wire_to(search, node.class)
        {
            for deleting in deleters(search, posts, number, *node)? {
                if let Some(from) = search.scan.nodes().get(deleting.node)
                    && told.insert(key(search, *from, deleting.statement))?
                {
                    let finding = dropped_call(search, *from, *node, deleting, wire)?;
                    remarks.push(finding)?;
                }
            }
        }
    }
    Ok(())
}

/// What tells the statement of the node from others: the class that declares the slot which has it, the slot's number, and its
/// own. `deleteLater` is each class's own.
fn key(search: ProgramSearch<'_>, from: Node, statement: usize) -> (usize, usize, usize) {
    let Member::Method(method) = from.member else {
        return (from.class, 0, statement);
    };
    match search.located.source.declared(from).class {
        QOBJECT => (from.class, method, statement),
        declaring => (declaring, method, statement),
    }
}

/// What leads to the destruction of this number: each statement that deletes such objects, at once or later. What every object has
/// to be deleted with counts where something leads to it.
fn deleters(
    search: ProgramSearch<'_>,
    posts: &PostGraph,
    number: usize,
    node: Node,
) -> Result<Vec<Deleting>, AllocError> {
    let mut found = Vec::new(search.graph.alloc);
    for before in posts.graph.before(number) {
        match posts.post(*before) {
            Some(Post::Later(statement)) => {
                for slot in posts.graph.before(*before) {
                    if is_used(search, posts, *slot) {
                        found.push(Deleting {
                            node: *slot,
                            statement,
                            is_later: true,
                        })?;
                    }
                }
            }
            Some(Post::Wire(_)) => {}
            None => {
                if let Some(from) = search.scan.nodes().get(*before)
                    && let Some(Reason::Statement(statement)) = reason_for(
                        search.located.source.meta,
                        *from,
                        node,
                    )
                {
                    found.push(Deleting {
                        node: *before,
                        statement,
                        is_later: false,
                    })?;
                }
            }
        }
    }
    Ok(found)
}

/// Whether the slot isn't `deleteLater`, or something leads to it.
fn is_used(search: ProgramSearch<'_>, posts: &PostGraph, slot: usize) -> bool {
    match search.scan.nodes().get(slot) {
        Some(node) if node.member == Member::Method(DELETE_LATER) => {
            !posts.graph.before(slot).is_empty()
        }
        _ => true,
    }
}

/// That the one node deletes an object of the other's class, to which this wire may have posted a call.
fn dropped_call(
    search: ProgramSearch<'_>,
    from: Node,
    to: Node,
    deleting: Deleting,
    wire: usize,
) -> Result<Finding, AllocError> {
    let located = search.located;
    let alloc = located.source.alloc;
    let meta = located.source.meta;
    let name = node_text(alloc, meta, from)?;
    let class = class_text(alloc, meta, to.class)?;
    let mut message = format!(in alloc; "`{name}` may delete an object of `{class}`")?;
    let mut chain = Vec::new(alloc);
    if let Some(posting) = meta.wires().get(wire) {
        let sender = Node {
            class: posting.sender,
            member: Member::Method(named(posting.signal)),
        };
        let receiver = Node {
            class: posting.receiver,
            member: Member::Method(posting.method),
        };
        let called = node_text(alloc, meta, receiver)?;
        write!(
            message,
            " while a call of `{called}` is posted: a call to a dead object is dropped"
        )?;
        chain.push(step(located, sender, receiver, Some(Post::Wire(wire)))?)?;
    }
    let posted = if deleting.is_later {
        Some(Post::Later(deleting.statement))
    } else {
        None
    };
    let last = step(located, from, to, posted)?;
    let place = last.place;
    chain.push(last)?;
    remark(search, Rule::DeletesConnected, message, place, chain)
}
