//! Slots and natives that may lead to the deletion of an object of their own class, and signals that may lead to that of their
//! sender: told by what deletes.

use crate::program::located::Located;
use crate::program::search::ProgramSearch;
use crate::program::sentences::{DELETION_MAY_BE_FALSE, doubted_help};
use crate::program::walks::{Hops, marks};
use edge_reasons::{Reason, reason_for};
use effect_scan::{Member, Node, row_at};
use findings::{ChainStep, Finding, JudgedText, Rule, Verdict};
use meta_model::{DESTROYED, Meta, Work};
use program_flaws::{class_text, node_text};
use std::alloc::AllocError;

/// What deletes objects, and the members that lead to it while they are active in an object that may be one of these.
#[derive(Drop)]
pub struct Deletion {
    /// The number of the node that deletes.
    from: usize,
    /// By what it does.
    reason: Option<Reason>,
    /// The slots and natives.
    bodies: DeletingMembers,
    /// The signals.
    signals: DeletingMembers,
}

/// Members that lead to a deletion.
#[derive(Drop)]
struct DeletingMembers {
    /// How many there are.
    count: usize,
    /// The nodes of a shortest way from one of them.
    way: Vec<Node>,
}

impl DeletingMembers {
    /// Adds a member from which this way leads.
    fn add(&mut self, way: Vec<Node>) {
        self.count = self.count.saturating_add(1);
        if self.way.is_empty() || way.len() < self.way.len() {
            self.way = way;
        }
    }
}

/// What deletes objects of a class while a slot, a native or a signal of that class is active; an inherited member counts where
/// that isn't so for a class above.
pub fn deletions(search: ProgramSearch<'_>) -> Result<Vec<Deletion>, AllocError> {
    let meta = search.located.source.meta;
    let mut found = Vec::new(search.graph.alloc);
    let mut told: Vec<Node> = Vec::new(search.graph.alloc);
    let deleted = deleted_nodes(search)?;
    for class in 0..meta.classes().len() {
        let targets = deleted_with(search, deleted.as_slice(), class)?;
        if !targets.is_empty() {
            let none = marks(search.graph.alloc, search.graph.len(), false)?;
            let ways = search.graph.ways_to(targets.as_slice(), none.as_slice())?;
            for method in 0..meta.method_count(class) {
                add_member(search, &ways, class, method, &mut told, &mut found)?;
            }
        }
    }
    Ok(found)
}

/// The destructions to which something leads.
fn deleted_nodes(search: ProgramSearch<'_>) -> Result<Vec<usize>, AllocError> {
    let mut deleted = Vec::new(search.graph.alloc);
    for (number, node) in search.scan.nodes().iter().enumerate() {
        if node.member == Member::Destruction && !search.graph.before(number).is_empty() {
            deleted.push(number)?;
        }
    }
    Ok(deleted)
}

/// Those of these destructions with which an object of the class may be deleted.
fn deleted_with(
    search: ProgramSearch<'_>,
    deleted: &[usize],
    class: usize,
) -> Result<Vec<usize>, AllocError> {
    let mut targets = Vec::new(search.graph.alloc);
    for number in deleted {
        if let Some(node) = search.scan.nodes().get(*number)
            && row_at(search.scan.destroys(), node.class).contains(&class)
        {
            targets.push(*number)?;
        }
    }
    Ok(targets)
}

/// Adds the method of the class to what it leads to by these ways, if it leads to something and wasn't told of.
fn add_member(
    search: ProgramSearch<'_>,
    ways: &Hops,
    class: usize,
    method: usize,
    told: &mut Vec<Node>,
    found: &mut Vec<Deletion>,
) -> Result<(), AllocError> {
    let node = Node {
        class,
        member: Member::Method(method),
    };
    let Some(number) = search.scan.number(node) else {
        return Ok(());
    };
    let declared = search.located.source.declared(node);
    if ways.at(number).is_none() || told.contains(&declared) {
        return Ok(());
    }
    told.push(declared)?;
    let is_signal = is_signal(search.located.source.meta, class, method);
    // The sender of this signal is being deleted when it is emitted.
    if is_signal && method == DESTROYED {
        return Ok(());
    }
    let numbers = ways.way(search.graph.alloc, number, search.graph.len())?;
    add_way(search, numbers.as_slice(), is_signal, found)
}

/// Whether the method is a signal.
fn is_signal(meta: &Meta, class: usize, method: usize) -> bool {
    match meta.method_at(class, method) {
        Some(found) => matches!(found.work, Work::Signal),
        None => true,
    }
}

/// Adds the way to that at its end.
fn add_way(
    search: ProgramSearch<'_>,
    numbers: &[usize],
    is_signal: bool,
    found: &mut Vec<Deletion>,
) -> Result<(), AllocError> {
    let alloc = search.graph.alloc;
    let way = search.nodes_at(numbers)?;
    let [.., from, _] = numbers else {
        return Ok(());
    };
    let reason = match way.as_slice() {
        [.., last, deleted] => reason_for(search.located.source.meta, *last, *deleted),
        _ => None,
    };
    let mut place = found.len();
    for (number, deletion) in found.iter().enumerate() {
        if deletion.from == *from && deletion.reason == reason {
            place = number;
        }
    }
    if place == found.len() {
        found.push(Deletion {
            from: *from,
            reason,
            bodies: DeletingMembers {
                count: 0,
                way: Vec::new(alloc),
            },
            signals: DeletingMembers {
                count: 0,
                way: Vec::new(alloc),
            },
        })?;
    }
    if let Some(deletion) = found.get_mut(place) {
        if is_signal {
            deletion.signals.add(way);
        } else {
            deletion.bodies.add(way);
        }
    }
    Ok(())
}

/// Adds each of these by which an object may be deleted while a slot or native runs in it.
pub fn gather_deletions(
    located: Located<'_>,
    deletions: &[Deletion],
    found: &mut Verdict,
) -> Result<(), AllocError> {
    for deletion in deletions {
        if deletion.bodies.count > 0
            && let Some(severity) = found.taken(
                Rule::DestroyPath,
                located.levels.of(Rule::DestroyPath),
            )
        {
            let finding = destroy_path(located, &deletion.bodies)?;
            found.push(severity, finding)?;
        }
    }
    Ok(())
}

/// Adds each of these by which a sender may be deleted, where no slot or native leads to it that is told of.
pub fn add_lost_senders(
    located: Located<'_>,
    deletions: &[Deletion],
    remarks: &mut Vec<Finding>,
) -> Result<(), AllocError> {
    for deletion in deletions {
        if deletion.bodies.count == 0 && deletion.signals.count > 0 {
            let finding = lost_sender(located, &deletion.signals)?;
            remarks.push(finding)?;
        }
    }
    Ok(())
}

/// That the first node of the way may lead to the last one.
fn destroy_path(located: Located<'_>, members: &DeletingMembers) -> Result<Finding, AllocError> {
    let alloc = located.source.alloc;
    let meta = located.source.meta;
    let mut message = String::new(alloc);
    let mut place = None;
    if let ([first, ..], [.., last]) = (members.way.as_slice(), members.way.as_slice()) {
        let name = node_text(alloc, meta, *first)?;
        let class = class_text(alloc, meta, first.class)?;
        write!(
            message,
            "`{name}` may lead at once to the deletion of an object of `{class}`, while it runs in one"
        )?;
        if first.class != last.class {
            let parent = class_text(alloc, meta, last.class)?;
            write!(
                message,
                ": by `owns`, such an object may be deleted with one of `{parent}`"
            )?;
        }
        place = located.node_place(*first);
    }
    if members.count > 1 {
        let count = members.count;
        write!(
            message,
            "; {count} slots and natives lead to this deletion of an object that they may run in"
        )?;
    }
    let advice =
        "write `later` in the place of `delete`, or make a wire on the way `queued`: then the deletion waits until the slot has returned";
    let help = doubted_help(alloc, advice, DELETION_MAY_BE_FALSE)?;
    Ok(Finding {
        rule: Rule::DestroyPath,
        message,
        help,
        text: JudgedText::Program,
        place,
        chain: located.steps(members.way.as_slice())?,
    })
}

/// That the signal which the way begins with may lead to the deletion of its sender.
fn lost_sender(located: Located<'_>, members: &DeletingMembers) -> Result<Finding, AllocError> {
    let alloc = located.source.alloc;
    let mut message = String::new(alloc);
    if let Some(signal) = members.way.first() {
        let name = node_text(alloc, located.source.meta, *signal)?;
        write!(
            message,
            "this may delete the sender of `{name}` while it emits: in C++ the emitter goes on in a destroyed object"
        )?;
    }
    if members.count > 1 {
        let count = members.count;
        write!(
            message,
            "; {count} signals lead to this deletion of their sender"
        )?;
    }
    let chain = located.steps(members.way.as_slice())?;
    let place = chain.last().and_then(|step: &ChainStep| step.place);
    let help = Some(String::from_str(
        alloc,
        "write `later` in the place of `delete`, or make a wire on the way `queued`: then the deletion waits until the signal was emitted",
    )?);
    Ok(Finding {
        rule: Rule::SenderDeleted,
        message,
        help,
        text: JudgedText::Program,
        place,
        chain,
    })
}
