//! What stores hold, part by part.

use crate::calls::holds::Reportable;
use crate::trials::ReportBuffer;
use basic_types::{LoopId, ObjectId};
use connections::{Connection, Connections, SignalHint};
use delete_later::Store;
use event_loops::{Item, Loops};
use object_tree::{Life, Tree};
use prop_bindings::{Binding, Bindings};

/// How many objects, signals, loops and bindings are looked at.
const FEW: usize = 6;

impl Reportable for Tree {
    fn tell(&self, told: &mut ReportBuffer) {
        told.count("created ", self.len());
        told.count(", held ", self.held());
        told.end();
        for number in 0..FEW {
            tell_object(self, ObjectId::new(number), told);
        }
    }
}

/// Tells an object: whether its name finds it, what it has while it lives, and its first child.
fn tell_object(tree: &Tree, object: ObjectId, told: &mut ReportBuffer) {
    let Some(name) = tree.name(object) else {
        return;
    };
    told.name(name);
    told.flag(" found ", tree.find(name) == Some(object));
    if let Some(life) = tree.life(object) {
        tell_life(life, told);
    }
    if let Some(child) = tree.first_child(object) {
        told.count(" child #", child.number());
    }
    told.end();
}

fn tell_life(life: &Life, told: &mut ReportBuffer) {
    told.count(" class ", life.class);
    told.count(" loop ", life.home.number());
    if let Some(parent) = life.parent {
        told.count(" parent #", parent.number());
    }
    told.flag(" blocked ", life.blocked);
    told.flag(" scheduled ", life.scheduled);
    told.values(life.values.as_slice());
}

impl Reportable for Connections {
    fn tell(&self, told: &mut ReportBuffer) {
        told.number("numbered ", self.last());
        told.count(", marked ", self.marked());
        told.end();
        for sender in 0..FEW {
            for signal in 0..FEW {
                tell_connected(self, ObjectId::new(sender), signal, told);
            }
        }
    }
}

/// Tells the first connections from a signal, in the order in which they were made.
fn tell_connected(
    connections: &Connections,
    sender: ObjectId,
    signal: usize,
    told: &mut ReportBuffer,
) {
    let mut last = 0;
    for _ in 0..FEW {
        if let Some(connection) = connections.next_after(sender, signal, last) {
            last = connection.number;
            tell_connection(&connection, told);
        }
    }
}

fn tell_connection(connection: &Connection, told: &mut ReportBuffer) {
    told.number("connection ", connection.number);
    told.count(" from #", connection.sender.number());
    told.count(" signal ", connection.signal);
    told.count(" to #", connection.receiver.number());
    told.count(" method ", connection.method);
    told.debug(" ", &connection.kind);
    told.flag(" single ", connection.single);
    told.end();
}

impl Reportable for Loops {
    fn tell(&self, told: &mut ReportBuffer) {
        told.number("next item ", self.next_number());
        told.end();
        for number in 0..FEW {
            tell_loop(self, LoopId::new(number), told);
        }
    }
}

/// Tells a loop with the first item that waits in it.
fn tell_loop(loops: &Loops, home: LoopId, told: &mut ReportBuffer) {
    let Some(name) = loops.name(home) else {
        return;
    };
    told.name(name);
    told.flag(" found ", loops.find(name) == Some(home));
    if let Some(posted) = loops.first_before(home, u64::MAX) {
        told.number(" item ", posted.number);
        tell_item(&posted.item, told);
    }
    told.end();
}

fn tell_item(item: &Item, told: &mut ReportBuffer) {
    told.count(" for #", item.object().number());
    if let Item::Call {
        method,
        arguments,
        ..
    } = item
    {
        told.count(" method ", *method);
        told.values(arguments.as_slice());
    }
}

impl Reportable for Bindings {
    fn tell(&self, told: &mut ReportBuffer) {
        told.count("last evaluated ", self.last_evaluated());
        told.end();
        for number in 0..FEW {
            if let Some(binding) = self.get(number) {
                tell_binding(binding, told);
            }
        }
    }
}

fn tell_binding(binding: &Binding, told: &mut ReportBuffer) {
    told.count("site ", binding.site);
    told.count(" of #", binding.target.object.number());
    told.count(" property ", binding.target.property);
    for source in binding.sources.as_slice() {
        told.count(" from #", source.number());
    }
    told.end();
}

/// Objects, and the bindings of their properties.
#[derive(Clone, Copy)]
pub struct Bound<'a> {
    pub tree: &'a Tree,
    pub bindings: &'a Bindings,
}

impl Reportable for Bound<'_> {
    fn tell(&self, told: &mut ReportBuffer) {
        self.tree.tell(told);
        self.bindings.tell(told);
    }
}

impl Reportable for Store {
    fn tell(&self, told: &mut ReportBuffer) {
        self.tree.tell(told);
        told.number("connections numbered ", self.connections.last());
        told.end();
        let mut hint = SignalHint::new();
        let due = self
            .connections
            .next_due(ObjectId::new(0), 4, 0, u64::MAX, &mut hint);
        if let Some(connection) = due {
            tell_connection(&connection, told);
        }
        self.loops.tell(told);
        self.bindings.counted().tell(told);
    }
}
