//! How a statement is written.

use crate::expression::LEFT_OUT;
use crate::names::{method_text, property_text, text_of};
use crate::source::ProgramSource;
use edge_reasons::{Numbered, statement_at};
use effect_scan::{Member, Node};
use meta_model::{MetaMethod, MetaPath, MetaRoot, Statement, ValueType, Work};
use std::alloc::AllocError;
use syntax_trees::{Expr, Slot};

/// Where a statement stands.
#[derive(Clone, Copy)]
pub struct BodyContext<'s> {
    /// The program.
    pub source: ProgramSource<'s>,
    /// The class that declares the slot.
    pub class: usize,
    /// The types of the slot's parameters.
    pub types: &'s [ValueType],
    /// The slot's declaration, which has the names of its parameters.
    pub slot: Option<&'s Slot>,
}

/// The body of the slot that the node is, with what stands around it.
pub fn body_of<'s>(
    source: ProgramSource<'s>,
    node: Node,
) -> Option<(BodyContext<'s>, &'s [Statement])> {
    let Member::Method(method) = node.member else {
        return None;
    };
    let found: &'s MetaMethod = source.meta.method_at(node.class, method)?;
    let Work::Slot(statements) = &found.work else {
        return None;
    };
    let body = BodyContext {
        source,
        class: source.declared(node).class,
        types: found.types.as_slice(),
        slot: source.slot(node),
    };
    Some((body, statements.as_slice()))
}

/// The statement of this number in the body of the slot that the node is, and where it stands.
pub fn statement_of<'s>(
    source: ProgramSource<'s>,
    node: Node,
    number: usize,
) -> Option<(BodyContext<'s>, Numbered<'s>)> {
    let (body, statements) = body_of(source, node)?;
    Some((body, statement_at(statements, number)?))
}

/// A path as it is written, and the class that it is declared to lead to.
#[derive(Drop)]
pub struct Spelled {
    pub text: String,
    class: Option<usize>,
}

impl<'s> BodyContext<'s> {
    /// The statement as it is written, with `..` in the place of its expressions and of what is in it.
    pub fn statement_text(&self, statement: &Statement) -> Result<String, AllocError> {
        let alloc = self.source.alloc;
        match statement {
            Statement::Set(path, property, _) => self.set_text(path, *property, LEFT_OUT),
            Statement::Emit(signal, given) => {
                self.emit_text(*signal, inner_text(given.is_empty()))
            }
            Statement::Call(path, method, given) => {
                self.call_text(path, *method, inner_text(given.is_empty()))
            }
            Statement::If(_, _, _) => String::from_str(alloc, "if (..) { .. }"),
            Statement::Connect(_, _) => String::from_str(alloc, "connect ..;"),
            Statement::Disconnect(_) => String::from_str(alloc, "disconnect ..;"),
            Statement::Delete(path) => {
                let path = self.path_text(path)?.text;
                format!(in alloc; "delete {path};")
            }
            Statement::Later(path) => {
                let path = self.path_text(path)?.text;
                format!(in alloc; "later {path};")
            }
            Statement::Group(_) => String::from_str(alloc, "group { .. }"),
        }
    }

    /// The same with its expressions, but for what is in it.
    pub fn whole_text(&self, statement: &Statement) -> Result<String, AllocError> {
        match statement {
            Statement::Set(path, property, value) => {
                let value = self.expression_text(value)?;
                self.set_text(path, *property, value.as_str())
            }
            Statement::Emit(signal, given) => {
                let inner = self.given_text(given.as_slice())?;
                self.emit_text(*signal, inner.as_str())
            }
            Statement::Call(path, method, given) => {
                let inner = self.given_text(given.as_slice())?;
                self.call_text(path, *method, inner.as_str())
            }
            _ => self.statement_text(statement),
        }
    }

    /// Arguments as they are written.
    fn given_text(&self, given: &[Expr<MetaPath>]) -> Result<String, AllocError> {
        let mut text = String::from_str(self.source.alloc, "(")?;
        for (place, argument) in given.iter().enumerate() {
            text.push_str(if place == 0 { "" } else { ", " })?;
            let argument = self.expression_text(argument)?;
            text.push_str(argument.as_str())?;
        }
        text.push_str(")")?;
        Ok(text)
    }

    /// `set path.p = VALUE;`
    fn set_text(
        &self,
        path: &MetaPath,
        property: usize,
        value: &str,
    ) -> Result<String, AllocError> {
        let alloc = self.source.alloc;
        let path = self.path_text(path)?;
        let name = property_text(alloc, self.source.meta, path.class, property)?;
        let object = path.text;
        format!(in alloc; "set {object}.{name} = {value};")
    }

    /// `emit s(..);`
    fn emit_text(&self, signal: usize, inner: &str) -> Result<String, AllocError> {
        let alloc = self.source.alloc;
        let name = method_text(alloc, self.source.meta, Some(self.class), signal)?;
        format!(in alloc; "emit {name}{inner};")
    }

    /// `call path.m(..);`
    fn call_text(&self, path: &MetaPath, method: usize, inner: &str) -> Result<String, AllocError> {
        let alloc = self.source.alloc;
        let path = self.path_text(path)?;
        let name = method_text(alloc, self.source.meta, path.class, method)?;
        let object = path.text;
        format!(in alloc; "call {object}.{name}{inner};")
    }

    /// The path as it is written.
    pub fn path_text(&self, path: &MetaPath) -> Result<Spelled, AllocError> {
        let alloc = self.source.alloc;
        let mut spelled = self.root_text(path.root)?;
        for step in path.steps.as_slice() {
            let name = property_text(alloc, self.source.meta, spelled.class, step.property)?;
            write!(spelled.text, ".{name}")?;
            spelled.class = class_of(step.kind);
        }
        Ok(spelled)
    }

    /// `this`, or the parameter's name.
    fn root_text(&self, root: MetaRoot) -> Result<Spelled, AllocError> {
        match root {
            MetaRoot::This => {
                let text = String::from_str(self.source.alloc, "this")?;
                Ok(Spelled {
                    text,
                    class: Some(self.class),
                })
            }
            MetaRoot::Parameter(parameter) => {
                let text = self.parameter_text(parameter)?;
                let class = match self.types.get(parameter) {
                    Some(kind) => class_of(*kind),
                    None => None,
                };
                Ok(Spelled { text, class })
            }
        }
    }

    /// The name of the parameter at this place.
    pub fn parameter_text(&self, parameter: usize) -> Result<String, AllocError> {
        if let Some(slot) = self.slot {
            if let Some(found) = slot.parameters.get(parameter) {
                if let Some(name) = &found.name {
                    return text_of(self.source.alloc, name.bytes());
                }
            }
        }
        Ok(String::new(self.source.alloc))
    }
}

/// The class that a value of this type refers to.
pub fn class_of(kind: ValueType) -> Option<usize> {
    match kind {
        ValueType::Reference(class, _) => Some(class),
        _ => None,
    }
}

/// Arguments, if there are any.
fn inner_text(is_empty: bool) -> &'static str {
    if is_empty { "()" } else { "(..)" }
}
