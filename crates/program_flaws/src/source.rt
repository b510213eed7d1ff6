//! A program, as it is declared, as it is loaded, and as it stands in its text.

use crate::places::ProgramPlaces;
use class_lang::{Limits, TextFault, read_within};
use class_outlines::{Declaration, Member as OwnMember};
use effect_scan::{Member, Node};
use meta_model::Meta;
use std::alloc::{AllocError, Global};
use syntax_trees::{Class, Program, Slot};

/// What is read of a program's text: its declarations, and where its parts stand.
pub struct ReadProgram {
    pub program: Program,
    pub places: ProgramPlaces,
}

impl Drop for ReadProgram {
    fn drop(self) {
        let ReadProgram {
            program: _,
            places: _,
        } = self;
    }
}

impl ReadProgram {
    /// What is read of this text by these limits.
    pub fn within(alloc: Global, limits: Limits, text: &[u8]) -> Result<ReadProgram, TextFault> {
        let program = read_within(alloc, limits, text)?;
        match ProgramPlaces::of(alloc, text) {
            Ok(places) => Ok(ReadProgram { program, places }),
            Err(_) => Err(TextFault::Memory),
        }
    }

    /// What is read of this text, however large it is; `None` where it is no program.
    pub fn of(alloc: Global, text: &[u8]) -> Result<Option<ReadProgram>, AllocError> {
        match ReadProgram::within(alloc, Limits::wide(), text) {
            Ok(read) => Ok(Some(read)),
            Err(TextFault::Memory) => Err(AllocError),
            Err(_) => Ok(None),
        }
    }

    /// The program, which loads as this.
    pub fn source<'s>(&'s self, alloc: Global, meta: &'s Meta) -> ProgramSource<'s> {
        ProgramSource {
            alloc,
            program: &self.program,
            meta,
        }
    }
}

/// A program that loads.
#[derive(Clone, Copy)]
pub struct ProgramSource<'s> {
    /// What memory is taken from.
    pub alloc: Global,
    /// Its declarations, with the names of parameters.
    pub program: &'s Program,
    /// The same with its names resolved.
    pub meta: &'s Meta,
}

impl<'s> ProgramSource<'s> {
    /// The member in the class that declares it, which is the node's class or one above it.
    pub fn declared(&self, node: Node) -> Node {
        let Node { class, member } = node;
        let class = match member {
            Member::Method(method) => declaring_class(self.meta, class, method),
            Member::Property(property) => self.declaring_property(class, property),
            Member::Destruction => class,
        };
        Node { class, member }
    }

    /// The class that declares the property which the class of this number has.
    fn declaring_property(&self, class: usize, property: usize) -> usize {
        let mut declaring = class;
        // A base stands before its class.
        for _ in 0..class {
            match self.meta.base(declaring) {
                Some(base) if property < self.property_count(base) => declaring = base,
                _ => break,
            }
        }
        declaring
    }

    /// How many properties the class has, inherited ones among them.
    fn property_count(&self, class: usize) -> usize {
        match self.meta.object(class) {
            Some(object) => object.properties.len(),
            None => 0,
        }
    }

    /// The declaration of the member; where it is the destruction of objects, that of their class. `None` for what `QObject` has.
    pub fn declaration(&self, node: Node) -> Option<Declaration> {
        let Node { class, member } = self.declared(node);
        let place = class.checked_sub(1)?;
        let own = match member {
            Member::Method(method) => {
                let own = method.checked_sub(self.meta.method_offset(class))?;
                match own.checked_sub(self.program.classes.get(place)?.signals.len()) {
                    Some(slot) => OwnMember::Slot(slot),
                    None => OwnMember::Signal(own),
                }
            }
            Member::Property(property) => {
                let inherited = match self.meta.base(class) {
                    Some(base) => self.property_count(base),
                    None => 0,
                };
                OwnMember::Property(property.checked_sub(inherited)?)
            }
            Member::Destruction => return Some(Declaration::Class(place)),
        };
        Some(Declaration::Member(place, own))
    }

    /// The declaration of the slot or native that the node is, in its class; `None` where it is none, or `QObject` has it.
    pub fn slot(&self, node: Node) -> Option<&'s Slot> {
        let Declaration::Member(class, OwnMember::Slot(own)) = self.declaration(node)? else {
            return None;
        };
        let class: &'s Class = self.program.classes.get(class)?;
        class.slots.get(own)
    }
}

/// The class that declares the method which the class of this number has.
fn declaring_class(meta: &Meta, class: usize, method: usize) -> usize {
    let mut declaring = class;
    while method < meta.method_offset(declaring) {
        match meta.base(declaring) {
            Some(base) => declaring = base,
            None => return declaring,
        }
    }
    declaring
}

/// The declarations of a program, however large, if they can be read.
pub fn declarations_of(alloc: Global, program: &[u8]) -> Result<Option<Program>, AllocError> {
    match read_within(alloc, Limits::wide(), program) {
        Ok(tree) => Ok(Some(tree)),
        Err(TextFault::Memory) => Err(AllocError),
        Err(_) => Ok(None),
    }
}
