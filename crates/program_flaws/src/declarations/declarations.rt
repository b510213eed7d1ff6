//! Declarations by their places in a program.

use crate::declarations::sentence::{SentencePiece, push_pieces};
use basic_types::Name;
use class_outlines::{Declaration, Member};
use std::alloc::{AllocError, Global};
use syntax_trees::{Class, Owns, Parameter, Program, Property, Signal, Site, Slot, SlotWork, Wire};

/// A declaration of a program.
#[derive(Clone, Copy)]
pub enum DeclarationRef<'a> {
    Class(&'a Class),
    /// A property of this class.
    Property(&'a Class, &'a Property),
    /// A signal of this class.
    Signal(&'a Class, &'a Signal),
    /// A slot or native of this class.
    Slot(&'a Class, &'a Slot),
    Wire(&'a Wire),
    Owns(&'a Owns),
    Site(&'a Site),
}

/// The declaration at this place of the program.
pub fn declared_at(program: &Program, declaration: Declaration) -> Option<DeclarationRef<'_>> {
    let declared = match declaration {
        Declaration::Class(number) => DeclarationRef::Class(program.classes.get(number)?),
        Declaration::Member(number, member) => member_at(program.classes.get(number)?, member)?,
        Declaration::Wire(number) => DeclarationRef::Wire(program.wires.get(number)?),
        Declaration::Owns(number) => DeclarationRef::Owns(program.owns.get(number)?),
        Declaration::Site(number) => DeclarationRef::Site(program.sites.get(number)?),
    };
    Some(declared)
}

/// The member at this place of the class.
fn member_at(class: &Class, member: Member) -> Option<DeclarationRef<'_>> {
    let declared = match member {
        Member::Property(place) => DeclarationRef::Property(class, class.properties.get(place)?),
        Member::Signal(place) => DeclarationRef::Signal(class, class.signals.get(place)?),
        Member::Slot(place) => DeclarationRef::Slot(class, class.slots.get(place)?),
    };
    Some(declared)
}

impl<'a> DeclarationRef<'a> {
    /// The name of the class that has it, or that it is.
    pub fn class_name(&self) -> Option<&'a Name> {
        match self {
            DeclarationRef::Class(class)
            | DeclarationRef::Property(class, _)
            | DeclarationRef::Signal(class, _)
            | DeclarationRef::Slot(class, _) => Some(&class.name),
            DeclarationRef::Wire(_) | DeclarationRef::Owns(_) | DeclarationRef::Site(_) => None,
        }
    }

    /// The parameters of a method.
    pub fn parameters(&self) -> &'a [Parameter] {
        match self {
            DeclarationRef::Signal(_, signal) => signal.parameters.as_slice(),
            DeclarationRef::Slot(_, slot) => slot.parameters.as_slice(),
            _ => &[],
        }
    }

    /// Adds which declaration it is.
    pub fn push_heading(&self, text: &mut String, alloc: Global) -> Result<(), AllocError> {
        match self {
            DeclarationRef::Class(class) => push_named(text, alloc, "class ", &class.name),
            DeclarationRef::Property(class, property) => {
                push_member(
                    text,
                    alloc,
                    class,
                    ", property ",
                    SentencePiece::Name(&property.name),
                )
            }
            DeclarationRef::Signal(class, signal) => {
                let method = SentencePiece::Method(&signal.name, signal.parameters.as_slice());
                push_member(text, alloc, class, ", signal ", method)
            }
            DeclarationRef::Slot(class, slot) => {
                let method = SentencePiece::Method(&slot.name, slot.parameters.as_slice());
                push_member(text, alloc, class, sort_of(slot), method)
            }
            DeclarationRef::Wire(wire) => push_wire(text, alloc, wire),
            DeclarationRef::Owns(_) => text.push_str("owns"),
            DeclarationRef::Site(site) => push_named(text, alloc, "binding ", &site.name),
        }
    }
}

/// Adds which declaration of this sort it is, by its name.
fn push_named(
    text: &mut String,
    alloc: Global,
    sort: &'static str,
    name: &Name,
) -> Result<(), AllocError> {
    push_pieces(
        text,
        alloc,
        &[SentencePiece::Words(sort), SentencePiece::Name(name)],
    )
}

/// Adds which member of this sort it is, behind its class.
fn push_member<'a>(
    text: &mut String,
    alloc: Global,
    class: &'a Class,
    sort: &'static str,
    member: SentencePiece<'a>,
) -> Result<(), AllocError> {
    let pieces = [
        SentencePiece::Words("class "),
        SentencePiece::Name(&class.name),
        SentencePiece::Words(sort),
        member,
    ];
    push_pieces(text, alloc, &pieces)
}

/// Adds which wire it is.
fn push_wire(text: &mut String, alloc: Global, wire: &Wire) -> Result<(), AllocError> {
    let pieces = [
        SentencePiece::Words("wire from "),
        SentencePiece::Name(&wire.sender),
        SentencePiece::Words(" to "),
        SentencePiece::Name(&wire.receiver),
    ];
    push_pieces(text, alloc, &pieces)
}

/// Whether it is a slot or a native, in the words of a heading.
fn sort_of(slot: &Slot) -> &'static str {
    match &slot.work {
        SlotWork::Body(_) => ", slot ",
        SlotWork::Native(_) => ", native ",
    }
}
