//! What a run has made by an event, and what its program declares, by names.

use diagnostics::{Printed, placed_or_none};
use program_flaws::lineage;
use std::alloc::{AllocError, Global};
use syntax_trees::{Class, Parameter, Program};
use texts::PlacedToken;

/// The event loop that is there from the beginning.
const MAIN: &[u8] = b"main";

/// An object that an event made.
#[derive(Clone, Copy)]
struct MadeObject<'a> {
    name: &'a [u8],
    class: &'a [u8],
}

/// The objects and event loops that the events before one made.
#[derive(Drop)]
pub struct KnownNames<'a> {
    alloc: Global,
    objects: Vec<MadeObject<'a>>,
    deleted: Vec<&'a [u8]>,
    loops: Vec<&'a [u8]>,
}

/// The token of this number, counted from 0, as it is spelled; nothing where there is none.
pub fn spelled<'l>(line: &'l [u8], tokens: &[PlacedToken], number: usize) -> &'l [u8] {
    match tokens.get(number) {
        Some(placed) => line.get(placed.at..placed.end).unwrap_or(&[]),
        None => &[],
    }
}

impl<'a> KnownNames<'a> {
    /// What is there before the first event.
    pub fn new(alloc: Global) -> Result<KnownNames<'a>, AllocError> {
        let mut loops = Vec::new(alloc);
        loops.push(MAIN)?;
        Ok(KnownNames {
            alloc,
            objects: Vec::new(alloc),
            deleted: Vec::new(alloc),
            loops,
        })
    }

    /// Takes what the event of this line made or deleted, which was accepted.
    pub fn take(&mut self, line: &'a [u8]) -> Result<(), AllocError> {
        let front = line.trim_ascii_start();
        let verbs: [&[u8]; 3] = [b"new", b"loop", b"delete"];
        if !verbs.iter().any(|verb: &&[u8]| front.starts_with(*verb)) {
            return Ok(());
        }
        let tokens = placed_or_none(self.alloc, line)?;
        let tokens = tokens.as_slice();
        let verb = spelled(line, tokens, 0);
        if verb == b"new".as_slice() {
            self.objects.push(MadeObject {
                name: spelled(line, tokens, 1),
                class: spelled(line, tokens, 2),
            })?;
        } else if verb == b"loop".as_slice() {
            self.loops.push(spelled(line, tokens, 1))?;
        } else if verb == b"delete".as_slice() {
            self.deleted.push(spelled(line, tokens, 1))?;
        }
        Ok(())
    }

    /// The class of which the object was made, if it was.
    pub fn class_of(&self, name: &[u8]) -> Option<&'a [u8]> {
        let found = self.objects.iter().find(|object| object.name == name)?;
        Some(found.class)
    }

    /// Whether an event deleted the object.
    pub fn is_deleted(&self, name: &[u8]) -> bool {
        self.deleted.iter().any(|deleted: &&[u8]| *deleted == name)
    }

    /// The objects.
    pub fn object_names(&self) -> Result<Vec<&'a [u8]>, AllocError> {
        let mut names = Vec::new(self.alloc);
        for object in self.objects.iter() {
            names.push(object.name)?;
        }
        Ok(names)
    }

    /// The event loops.
    pub fn loop_names(&self) -> &[&'a [u8]] {
        self.loops.as_slice()
    }
}

/// A sort of members.
#[derive(Clone, Copy, Debug, PartialEq, Eq)]
pub enum MemberSort {
    Property,
    Signal,
    /// Slots and natives.
    Slot,
    /// What a connection calls.
    Method,
}

/// The types that a member of this sort and name takes, which has so many parameters; nothing where objects of the class have none.
pub fn taken_types(
    alloc: Global,
    program: &Program,
    class: &[u8],
    sort: MemberSort,
    name: &[u8],
    count: usize,
) -> Result<String, AllocError> {
    let mut text = String::new(alloc);
    for class in lineage(alloc, program, class)? {
        for property in class.properties.as_slice() {
            if sort == MemberSort::Property && property.name.bytes() == name {
                let kind = property.kind.text(alloc)?;
                push_listed(&mut text, kind.as_slice())?;
            }
        }
        for signal in class.signals.as_slice() {
            let parameters = signal.parameters.as_slice();
            if sort == MemberSort::Signal
                && signal.name.bytes() == name
                && parameters.len() == count
            {
                push_types(&mut text, alloc, parameters)?;
            }
        }
        for slot in class.slots.as_slice() {
            let parameters = slot.parameters.as_slice();
            if sort == MemberSort::Slot && slot.name.bytes() == name && parameters.len() == count {
                push_types(&mut text, alloc, parameters)?;
            }
        }
    }
    Ok(text)
}

/// Adds the parameters' types.
fn push_types(
    text: &mut String,
    alloc: Global,
    parameters: &[Parameter],
) -> Result<(), AllocError> {
    for parameter in parameters {
        let kind = parameter.kind.text(alloc)?;
        push_listed(text, kind.as_slice())?;
    }
    Ok(())
}

/// Adds one more to the words of a list.
pub fn push_listed(text: &mut String, word: &[u8]) -> Result<(), AllocError> {
    if !text.is_empty() {
        text.push_str(", ")?;
    }
    let word = Printed(word);
    write!(text, "`{word}`")
}

/// The names of the members of this sort that objects of the class have.
pub fn member_names<'p>(
    alloc: Global,
    program: &'p Program,
    class: &[u8],
    sort: MemberSort,
) -> Result<Vec<&'p [u8]>, AllocError> {
    let mut names = Vec::new(alloc);
    for class in lineage(alloc, program, class)? {
        add_members(&mut names, class, sort)?;
    }
    match sort {
        MemberSort::Property => names.push(b"objectName".as_slice())?,
        MemberSort::Signal => names.push(b"destroyed".as_slice())?,
        MemberSort::Slot | MemberSort::Method => names.push(b"deleteLater".as_slice())?,
    }
    Ok(names)
}

/// Adds the names of the members of this sort that the class declares.
fn add_members<'p>(
    names: &mut Vec<&'p [u8]>,
    class: &'p Class,
    sort: MemberSort,
) -> Result<(), AllocError> {
    if sort == MemberSort::Property {
        for property in class.properties.as_slice() {
            names.push(property.name.bytes())?;
        }
    }
    if sort == MemberSort::Signal || sort == MemberSort::Method {
        for signal in class.signals.as_slice() {
            names.push(signal.name.bytes())?;
        }
    }
    if sort == MemberSort::Slot || sort == MemberSort::Method {
        for slot in class.slots.as_slice() {
            names.push(slot.name.bytes())?;
        }
    }
    Ok(())
}
