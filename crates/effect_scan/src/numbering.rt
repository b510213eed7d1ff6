//! The nodes of a program in their order, and the numbers that this gives them.

ghost use Rattle.std.specs.Prelude.{◌≡◌, ◌+◌, ◌-◌, ◌<◌, ◌^◌, ◌++◌, map, IfOk, OnOk};
ghost use Rattle.name_indexes.specs.LookUps.{LooksUp, FindsOnly};
ghost use Rattle.effect_scan.specs.Nodes.{IsAt, class_nodes, nodes_from, shape_of};
ghost use Rattle.effect_scan.specs.Numbering.{IsPlaceIn, Numbers};

use crate::node::{Member, Node};
use meta_model::{DESTROYED, MetaObject, OBJECT_NAME_CHANGED};
use sqlite_items::Items;
use std::alloc::{AllocError, Global};
use std::marker::Model;

/// How many methods and properties a class has.
#[derive(Clone, Copy, Debug, PartialEq, Eq)]
pub struct Shape {
    /// Its methods, inherited ones too.
    pub methods: usize,
    /// Its properties, inherited ones too.
    pub properties: usize,
}

impl Shape {
    /// How many of the methods are nodes: all but `destroyed()`.
    fn listed(self) -> usize
        requires { 1 + (self.methods - OBJECT_NAME_CHANGED) < 2 ^ 64 }
        ensures { result ≡ 1 + (self.methods - OBJECT_NAME_CHANGED) }
    {
        1 + self.methods.saturating_sub(OBJECT_NAME_CHANGED)
    }

    /// The place of the member among the nodes of its class, or `None` where it is none of them.
    fn place(self, member: Member) -> Option<usize>
        requires { 1 + (self.methods - OBJECT_NAME_CHANGED) + self.properties < 2 ^ 64 }
        ensures value { LooksUp (IsPlaceIn self member) result }
        ensures only { FindsOnly (IsPlaceIn self member) result }
    {
        match member {
            Member::Method(method) if method == DESTROYED => Some(0),
            Member::Method(method) if OBJECT_NAME_CHANGED <= method && method < self.methods => {
                Some(method - 1)
            }
            Member::Method(_) => None,
            Member::Property(property) if property < self.properties => {
                Some(self.listed() + property)
            }
            Member::Property(_) => None,
            Member::Destruction => Some(self.listed() + self.properties),
        }
    }
}

/// The nodes of a program, with their numbers.
pub struct Numbering {
    nodes: Items<Node>,
    shapes: Items<Shape>,
    starts: Items<usize>,
}

impl Drop for Numbering {
    fn drop(self) {
        let Numbering {
            nodes: _,
            shapes: _,
            starts: _,
        } = self;
    }
}

impl Model for Numbering {
    ghost use Rattle.std.specs.Prelude.{List};
    ghost use Rattle.effect_scan.specs.declared.node.Node.{Node};
    ghost use Rattle.effect_scan.specs.Numbering.{Numbers};

    ghost Value = { List Node };

    ghost view = { λ numbering. numbering.nodes };

    ghost invariant = { λ numbering. Numbers numbering.nodes numbering.shapes numbering.starts };
}

impl Numbering {
    /// The nodes of these classes; its error is that memory was refused.
    pub fn of(alloc: Global, classes: &[MetaObject]) -> Result<Numbering, AllocError>
        ensures { IfOk result (λ nodes. nodes ≡ nodes_from 0 (map shape_of classes.now)) }
    {
        let mut nodes = Items::from_vec(Vec::with_capacity(alloc, room_for(classes))?);
        let mut shapes = Items::new(alloc);
        let mut starts = Items::new(alloc);
        for (number, class) in classes.iter().enumerate() {
            let shape = Shape {
                methods: class.methods.len(),
                properties: class.properties.len(),
            };
            let start = nodes.len();
            push_nodes(&mut nodes, number, shape)?;
            shapes.push(shape)?;
            starts.push(start)?;
        }
        Ok(Numbering {
            nodes,
            shapes,
            starts,
        })
    }

    /// The nodes in their order.
    pub fn nodes(&self) -> &[Node]
        ensures { result.now ≡ self.now }
    {
        self.nodes.as_slice()
    }

    /// The number of the node, or `None` where it is no node of the program.
    pub fn number(&self, node: Node) -> Option<usize>
        ensures value { LooksUp (IsAt self.now node) result }
        ensures only { FindsOnly (IsAt self.now node) result }
    {
        let _count = self.nodes.len();
        let shape = self.shapes.get(node.class)?;
        let start = self.starts.get(node.class)?;
        let place = shape.place(node.member)?;
        Some(*start + place)
    }
}

/// How many nodes there is to be room for at first: just those of these classes.
fn room_for(classes: &[MetaObject]) -> usize {
    let mut room = 0usize;
    for class in classes {
        // Two of its methods are one node, and its destruction is one.
        room = room
            .saturating_add(class.methods.len())
            .saturating_add(class.properties.len());
    }
    room
}

/// Adds the nodes of the class of this number.
fn push_nodes(nodes: &mut Items<Node>, class: usize, shape: Shape) -> Result<(), AllocError>
    ensures { OnOk result (nodes.new ≡ nodes.old ++ class_nodes class shape) }
{
    nodes.push(Node {
        class,
        member: Member::Method(DESTROYED),
    })?;
    for method in OBJECT_NAME_CHANGED..shape.methods {
        nodes.push(Node {
            class,
            member: Member::Method(method),
        })?;
    }
    for property in 0..shape.properties {
        nodes.push(Node {
            class,
            member: Member::Property(property),
        })?;
    }
    nodes.push(Node {
        class,
        member: Member::Destruction,
    })
}
