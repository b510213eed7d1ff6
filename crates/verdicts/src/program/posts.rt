//! What members lead to later: calls that queued wires post, and deletions that `later` schedules.

use crate::program::located::Located;
use crate::program::search::ProgramSearch;
use crate::program::walks::DirectedGraph;
use basic_types::Kind;
use effect_scan::{Member, Node, Scan, named};
use findings::{ChainStep, Link, TextPlace};
use meta_model::{Meta, MetaPath, MetaRoot, MetaWire, Statement};
use program_flaws::{OwnSlot, node_text, wire_text};
use std::alloc::{AllocError, Global};
use std::ops::Range;

/// What posts.
#[derive(Clone, Copy, Debug, PartialEq, Eq)]
pub enum Post {
    /// The queued wire at this place.
    Wire(usize),
    /// The statement `later` of this number in the body of a slot.
    Later(usize),
}

/// The edges of a program with those by which something comes later: each of these leads through a node of its own behind the
/// program's.
#[derive(Drop)]
pub struct PostGraph {
    /// The edges.
    pub graph: DirectedGraph,
    /// What posts, in the order of its nodes.
    posts: Vec<Post>,
    /// The number of the first of its nodes.
    first: usize,
}

/// What posts are made of.
#[derive(Drop)]
struct Making<'m> {
    scan: &'m Scan,
    /// For each class the classes that are it or below it.
    below: Vec<Vec<usize>>,
}

impl PostGraph {
    /// Those of the program.
    pub fn of(search: ProgramSearch<'_>) -> Result<PostGraph, AllocError> {
        let meta = search.located.source.meta;
        let alloc = search.graph.alloc;
        let making = Making {
            scan: search.scan,
            below: families(alloc, meta)?,
        };
        let graph = DirectedGraph::of(alloc, search.scan)?;
        let mut posts = PostGraph {
            first: graph.len(),
            graph,
            posts: Vec::new(alloc),
        };
        for (place, wire) in meta.wires().iter().enumerate() {
            if wire.kind == Kind::Queued {
                posts.add_wire(&making, place, wire)?;
            }
        }
        for class in 0..meta.classes().len() {
            for method in meta.method_offset(class)..meta.method_count(class) {
                if let Some(slot) = OwnSlot::of(meta, class, method) {
                    posts.add_slot(&making, slot)?;
                }
            }
        }
        Ok(posts)
    }

    /// What posts at the node of this number, if it is one of those.
    pub fn post(&self, number: usize) -> Option<Post> {
        self.posts.get(number.checked_sub(self.first)?).copied()
    }

    /// The numbers of the nodes that post.
    pub fn numbers(&self) -> Range<usize> {
        self.first..self.graph.len()
    }

    /// Adds a node that posts.
    fn add(&mut self, post: Post) -> Result<usize, AllocError> {
        self.posts.push(post)?;
        self.graph.add_node()
    }

    /// Adds the calls that the wire posts.
    fn add_wire(
        &mut self,
        making: &Making<'_>,
        place: usize,
        wire: &MetaWire,
    ) -> Result<(), AllocError> {
        let post = self.add(Post::Wire(place))?;
        for class in making.family(wire.sender) {
            if let Some(number) = making.method(*class, named(wire.signal)) {
                self.graph.join(number, post)?;
            }
        }
        for class in making.family(wire.receiver) {
            if let Some(number) = making.method(*class, wire.method) {
                self.graph.join(post, number)?;
            }
        }
        Ok(())
    }

    /// Adds the deletions that the slot schedules.
    fn add_slot(&mut self, making: &Making<'_>, slot: OwnSlot<'_>) -> Result<(), AllocError> {
        let statements = slot.statements(self.graph.alloc)?;
        for (number, statement) in statements.iter().enumerate() {
            if let Statement::Later(path) = *statement
                && let Some(deleted) = deleted_at(slot, path)
            {
                self.add_later(making, slot, Post::Later(number), deleted)?;
            }
        }
        Ok(())
    }

    /// Adds the deletion that the statement schedules.
    fn add_later(
        &mut self,
        making: &Making<'_>,
        slot: OwnSlot<'_>,
        later: Post,
        deleted: Deleted,
    ) -> Result<(), AllocError> {
        match deleted {
            Deleted::Own => {
                for class in making.family(slot.class) {
                    let post = self.add(later)?;
                    self.join_slot(making, *class, slot.method, post)?;
                    self.join_destruction(making, *class, post)?;
                }
            }
            Deleted::Below(parent) => {
                let post = self.add(later)?;
                for class in making.family(slot.class) {
                    self.join_slot(making, *class, slot.method, post)?;
                }
                for class in making.family(parent) {
                    self.join_destruction(making, *class, post)?;
                }
            }
        }
        Ok(())
    }

    /// Lets the method of the class lead to the node.
    fn join_slot(
        &mut self,
        making: &Making<'_>,
        class: usize,
        method: usize,
        post: usize,
    ) -> Result<(), AllocError> {
        match making.method(class, method) {
            Some(number) => self.graph.join(number, post),
            None => Ok(()),
        }
    }

    /// Lets the node lead to the destruction of objects of the class.
    fn join_destruction(
        &mut self,
        making: &Making<'_>,
        class: usize,
        post: usize,
    ) -> Result<(), AllocError> {
        let member = Member::Destruction;
        match making.scan.number(Node { class, member }) {
            Some(number) => self.graph.join(post, number),
            None => Ok(()),
        }
    }

    /// The steps along these nodes, of which some may post.
    pub fn steps(
        &self,
        search: ProgramSearch<'_>,
        numbers: &[usize],
    ) -> Result<Vec<ChainStep>, AllocError> {
        let mut steps = Vec::new(self.graph.alloc);
        let mut last: Option<Node> = None;
        let mut posted: Option<Post> = None;
        for number in numbers {
            match search.scan.nodes().get(*number) {
                Some(node) => {
                    if let Some(from) = last {
                        steps.push(step(search.located, from, *node, posted)?)?;
                    }
                    last = Some(*node);
                    posted = None;
                }
                None => posted = self.post(*number),
            }
        }
        Ok(steps)
    }
}

impl Making<'_> {
    /// The classes that are this one or below it.
    fn family(&self, class: usize) -> &[usize] {
        match self.below.get(class) {
            Some(classes) => classes.as_slice(),
            None => &[],
        }
    }

    /// The number of the method of the class among the nodes.
    fn method(&self, class: usize, method: usize) -> Option<usize> {
        let member = Member::Method(method);
        self.scan.number(Node { class, member })
    }
}

/// For each class the classes that are it or below it, in their order.
pub fn families(alloc: Global, meta: &Meta) -> Result<Vec<Vec<usize>>, AllocError> {
    let count = meta.classes().len();
    let mut below: Vec<Vec<usize>> = Vec::new(alloc);
    for _ in 0..count {
        below.push(Vec::new(alloc))?;
    }
    for class in 0..count {
        let mut above = Some(class);
        // A base stands before its class.
        for _ in 0..=class {
            let Some(parent) = above else {
                break;
            };
            if let Some(classes) = below.get_mut(parent) {
                classes.push(class)?;
            }
            above = meta.base(parent);
        }
    }
    Ok(below)
}

/// Which objects a statement schedules for deletion.
#[derive(Clone, Copy, Debug, PartialEq, Eq)]
enum Deleted {
    /// The slot's own.
    Own,
    /// One of this class or of one below it.
    Below(usize),
}

/// Which objects the path may lead to.
fn deleted_at(slot: OwnSlot<'_>, path: &MetaPath) -> Option<Deleted> {
    if path.steps.is_empty() && path.root == MetaRoot::This {
        return Some(Deleted::Own);
    }
    let class = slot.class_at(path)?;
    Some(Deleted::Below(class))
}

/// The step from the one node to the other, which comes later where something is posted.
pub fn step(
    located: Located<'_>,
    from: Node,
    to: Node,
    posted: Option<Post>,
) -> Result<ChainStep, AllocError> {
    let Some(post) = posted else {
        return located.step(from, to);
    };
    let alloc = located.source.alloc;
    let meta = located.source.meta;
    let first = node_text(alloc, meta, from)?;
    let second = node_text(alloc, meta, to)?;
    let mut message = format!(in alloc; "`{first}` leads later to `{second}`: ")?;
    match post {
        Post::Wire(place) => {
            if let Some(wire) = meta.wires().get(place) {
                let wire = wire_text(alloc, meta, wire)?;
                write!(message, "`{wire}`")?;
            }
        }
        Post::Later(_) => message.push_str("its body schedules the deletion by `later`")?,
    }
    Ok(ChainStep {
        from: first,
        to: second,
        link: match post {
            Post::Wire(_) => Link::Wire,
            Post::Later(_) => Link::Statement,
        },
        is_posted: true,
        message,
        place: post_place(located, from, post),
    })
}

/// Where that stands which posts.
fn post_place(located: Located<'_>, from: Node, post: Post) -> Option<TextPlace> {
    match post {
        Post::Wire(place) => located.places.wire(place),
        Post::Later(number) => located.statement_place(from, number),
    }
}
