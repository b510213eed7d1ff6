//! The classes of a program by their names.

use std::alloc::{AllocError, Global};
use syntax_trees::{Class, Program};

/// The class of this name.
fn class_named<'p>(program: &'p Program, name: &[u8]) -> Option<&'p Class> {
    program
        .classes
        .as_slice()
        .iter()
        .find(|class| class.name.bytes() == name)
}

/// The names of the classes, with `QObject`'s.
pub fn class_names(alloc: Global, program: &Program) -> Result<Vec<&[u8]>, AllocError> {
    let mut names = Vec::new(alloc);
    names.push(b"QObject".as_slice())?;
    for class in program.classes.as_slice() {
        names.push(class.name.bytes())?;
    }
    Ok(names)
}

/// The class of this name, and those above it.
pub fn lineage<'p>(
    alloc: Global,
    program: &'p Program,
    class: &[u8],
) -> Result<Vec<&'p Class>, AllocError> {
    let mut found = Vec::new(alloc);
    let mut next = class_named(program, class);
    // A base stands before its class, so there are no more.
    for _ in program.classes.as_slice() {
        let Some(class) = next else {
            break;
        };
        found.push(class)?;
        next = match &class.base {
            Some(base) => class_named(program, base.bytes()),
            None => None,
        };
    }
    Ok(found)
}
