//! The slots that a program declares.

use crate::statement::class_of;
use meta_model::{Meta, MetaMethod, MetaPath, MetaRoot, Statement, ValueType, Work};
use std::alloc::{AllocError, Global};

/// A slot in the class that declares it.
#[derive(Clone, Copy)]
pub struct OwnSlot<'m> {
    /// The class.
    pub class: usize,
    /// The slot, by its number in the class.
    pub method: usize,
    /// The types of its parameters.
    types: &'m [ValueType],
    /// Its statements.
    pub body: &'m [Statement],
}

impl<'m> OwnSlot<'m> {
    /// The method of this number, if the class declares it and it is a slot.
    pub fn of(meta: &'m Meta, class: usize, method: usize) -> Option<OwnSlot<'m>> {
        if method < meta.method_offset(class) {
            return None;
        }
        let found: &'m MetaMethod = meta.method_at(class, method)?;
        match &found.work {
            Work::Slot(body) => Some(OwnSlot {
                class,
                method,
                types: found.types.as_slice(),
                body: body.as_slice(),
            }),
            Work::Signal | Work::Native(_) => None,
        }
    }

    /// Its statements in the order of the text, with those in its blocks and groups: each by its number there.
    pub fn statements(&self, alloc: Global) -> Result<Vec<&'m Statement>, AllocError> {
        let mut statements = Vec::new(alloc);
        add_statements(self.body, &mut statements)?;
        Ok(statements)
    }

    /// The class of the objects that the path is declared to lead to; theirs may also be one below it.
    pub fn class_at(&self, path: &MetaPath) -> Option<usize> {
        match path.steps.as_slice().last() {
            Some(step) => class_of(step.kind),
            None => match path.root {
                MetaRoot::This => Some(self.class),
                MetaRoot::Parameter(parameter) => class_of(*self.types.get(parameter)?),
            },
        }
    }
}

/// Adds these statements and those that are in them.
#[cycle(statements)]
fn add_statements<'m>(
    body: &'m [Statement],
    statements: &mut Vec<&'m Statement>,
) -> Result<(), AllocError> {
    for statement in body {
        add_statement(statement, statements)?;
    }
    Ok(())
}

/// Adds the statement and those that are in it.
#[cycle(statements)]
fn add_statement<'m>(
    statement: &'m Statement,
    statements: &mut Vec<&'m Statement>,
) -> Result<(), AllocError> {
    statements.push(statement)?;
    match statement {
        Statement::If(_, chosen, other) => {
            add_statements(chosen.as_slice(), statements)?;
            add_statements(other.as_slice(), statements)
        }
        Statement::Group(sets) => add_statements(sets.as_slice(), statements),
        _ => Ok(()),
    }
}
