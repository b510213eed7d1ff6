//! The trees of programs.

ghost use Rattle.std.specs.Prelude.{◌≡◌, []};
ghost use Rattle.syntax_trees.specs.Trees.{without_members};

use crate::syntax::{Body, Expr, Literal, Path};
use basic_types::{Kind, Name, QType, Sig};
use sqlite_items::Items;
use std::alloc::Global;

/// A parameter of a signal, a slot or a native.
pub struct Parameter {
    /// Its type, in its normal form.
    pub kind: QType,
    /// Its name, which a signal's or a native's parameter may leave out.
    pub name: Option<Name>,
}

impl Drop for Parameter {
    fn drop(self) {
        let Parameter { kind: _, name: _ } = self;
    }
}

/// `property T p = v notify s(..);`
pub struct Property {
    /// Its type, in its normal form.
    pub kind: QType,
    /// What it is called in its class.
    pub name: Name,
    /// The literal that it starts with, if one is given.
    pub initial: Option<Literal>,
    /// The signal that is emitted when its value changes, if one is given; with at most 8 types.
    pub notify: Option<Sig>,
}

impl Drop for Property {
    fn drop(self) {
        let Property {
            kind: _,
            name: _,
            initial: _,
            notify: _,
        } = self;
    }
}

/// `signal s(..);`
pub struct Signal {
    /// What it is called in its class.
    pub name: Name,
    /// At most 8, in their order.
    pub parameters: Items<Parameter>,
}

impl Drop for Signal {
    fn drop(self) {
        let Signal {
            name: _,
            parameters: _,
        } = self;
    }
}

/// `reads p, .. emits s(..), .. sets q, ..`: what a native is given of its object, and what its answers may do.
pub struct EffectNames {
    /// The properties whose values it is given, in their order; there may be none.
    pub reads: Items<Name>,
    /// The signals that it may emit, in their order, each with at most 8 types; there may be none.
    pub emits: Items<Sig>,
    /// The properties that it may set, in their order; there may be none.
    pub sets: Items<Name>,
}

impl Drop for EffectNames {
    fn drop(self) {
        let EffectNames {
            reads: _,
            emits: _,
            sets: _,
        } = self;
    }
}

/// What a slot does.
#[derive(Drop)]
pub enum SlotWork {
    /// The statements of its block.
    Body(Body),
    /// What a closure of the host answers, within these effects: the slot is a native.
    Native(EffectNames),
}

/// `slot m(..) { .. }` or `native m(..) ..;`
#[derive(Drop)]
pub struct Slot {
    /// What it is called in its class.
    pub name: Name,
    /// At most 8, in their order, each with its name where the slot has a body.
    pub parameters: Items<Parameter>,
    /// What it does.
    pub work: SlotWork,
}

/// `class C : B { .. }`, with the members of each sort in the order in which they are declared.
#[derive(Drop)]
pub struct Class {
    /// The class's name.
    pub name: Name,
    /// The base's name, if one is given; else the base is `QObject`.
    pub base: Option<Name>,
    /// At most 32.
    pub properties: Items<Property>,
    /// At most 64, together with the slots.
    pub signals: Items<Signal>,
    /// The slots and natives in one list; at most 64, together with the signals.
    pub slots: Items<Slot>,
}

/// `wire C s(..) -> D m(..) kind;`
pub struct Wire {
    /// The class of the sender.
    pub sender: Name,
    /// The sender's signal, with at most 8 types.
    pub signal: Sig,
    /// The class of the receiver.
    pub receiver: Name,
    /// The receiver's method, with at most 8 types.
    pub method: Sig,
    /// How the connection reaches its receiver.
    pub kind: Kind,
}

impl Drop for Wire {
    fn drop(self) {
        let Wire {
            sender: _,
            signal: _,
            receiver: _,
            method: _,
            kind: _,
        } = self;
    }
}

/// `owns C D;`
pub struct Owns {
    /// The class of the parent.
    pub parent: Name,
    /// The class of the child.
    pub child: Name,
}

impl Drop for Owns {
    fn drop(self) {
        let Owns {
            parent: _,
            child: _,
        } = self;
    }
}

/// A formal source of a binding: `C f`
pub struct Formal {
    /// The class of the objects that it stands for.
    pub class: Name,
    /// What it is called in the expression.
    pub name: Name,
}

impl Drop for Formal {
    fn drop(self) {
        let Formal { class: _, name: _ } = self;
    }
}

/// `binding N C.p (D f, ..) = e;`
pub struct Site {
    /// What it is called.
    pub name: Name,
    /// The class of the targets.
    pub class: Name,
    /// The property that is bound.
    pub property: Name,
    /// The formal sources, at most 8, in their order.
    pub formals: Items<Formal>,
    /// What the property is bound to: no null is in it, and each of its paths is a property of a formal source.
    pub expression: Expr<Path>,
}

impl Drop for Site {
    fn drop(self) {
        let Site {
            name: _,
            class: _,
            property: _,
            formals: _,
            expression: _,
        } = self;
    }
}

/// The declarations of a text, those of each sort in their order.
#[derive(Drop)]
pub struct Program {
    /// At most 64, with at most 64 natives in all of them together.
    pub classes: Items<Class>,
    /// At most 1,000.
    pub wires: Items<Wire>,
    /// At most 1,000.
    pub owns: Items<Owns>,
    /// At most 1,000.
    pub sites: Items<Site>,
}

impl Class {
    /// The class of this name and base without members.
    pub fn new(alloc: Global, name: Name, base: Option<Name>) -> Class
        ensures { result ≡ without_members name base }
    {
        Class {
            name,
            base,
            properties: Items::new(alloc),
            signals: Items::new(alloc),
            slots: Items::new(alloc),
        }
    }
}

impl Program {
    /// The program without declarations.
    pub fn new(alloc: Global) -> Program
        ensures { result ≡ record { classes = []; wires = []; owns = []; sites = [] } }
    {
        Program {
            classes: Items::new(alloc),
            wires: Items::new(alloc),
            owns: Items::new(alloc),
            sites: Items::new(alloc),
        }
    }
}
