//! Statements that don't hand on the value that their slot was called with (docs/settling.md, "Handing on").

use effect_scan::{Effect, Node, Reach, effect_of};
use meta_model::{Meta, MetaPath, MetaRoot, Statement, ValueType};
use syntax_trees::Expr;

/// A statement that doesn't hand the value on.
#[derive(Clone, Copy)]
pub struct OtherValue<'m> {
    /// The statement.
    pub statement: &'m Statement,
    /// Whether it would, if it weren't in a group.
    pub is_grouped: bool,
}

/// Whose body is looked through, and for what.
#[derive(Clone, Copy)]
pub struct OtherSearch<'m> {
    /// The program.
    pub meta: &'m Meta,
    /// The class of the body.
    pub class: usize,
    /// The types of its parameters.
    pub types: &'m [ValueType],
    /// The node that its statements may do something to.
    pub to: Node,
}

impl<'m> OtherSearch<'m> {
    /// The first of these statements, and of those in them, that does something to the node and doesn't hand the value on.
    #[cycle(others)]
    pub fn first_among<'b>(
        &self,
        body: &'b [Statement],
        is_grouped: bool,
    ) -> Option<OtherValue<'b>> {
        for statement in body {
            if let Some(found) = self.first_in(statement, is_grouped) {
                return Some(found);
            }
        }
        None
    }

    /// The same of one statement, and of those in it.
    #[cycle(others)]
    fn first_in<'b>(&self, statement: &'b Statement, is_grouped: bool) -> Option<OtherValue<'b>> {
        match statement {
            Statement::If(_, chosen, other) => {
                if let Some(found) = self.first_among(chosen.as_slice(), is_grouped) {
                    return Some(found);
                }
                self.first_among(other.as_slice(), is_grouped)
            }
            Statement::Group(sets) => self.first_among(sets.as_slice(), true),
            _ => self.itself(statement, is_grouped),
        }
    }

    /// The statement, if it does something to the node by itself and doesn't hand the value on.
    fn itself<'b>(&self, statement: &'b Statement, is_grouped: bool) -> Option<OtherValue<'b>> {
        let effect = effect_of(self.types, statement)?;
        let hands_value = hands_value(statement);
        if !self.reaches(effect) || (hands_value && !is_grouped) {
            return None;
        }
        Some(OtherValue {
            statement,
            is_grouped: hands_value,
        })
    }

    /// Whether the effect is one on the node.
    fn reaches(&self, effect: Effect) -> bool {
        let member = effect.member;
        match effect.reach {
            Reach::Own => {
                let class = self.class;
                self.to == Node { class, member }
            }
            Reach::Below(class) => {
                self.to.member == member && self.meta.inherits(self.to.class, class)
            }
        }
    }
}

/// Whether what the statement does by itself, it does with the value of the slot's first parameter alone.
fn hands_value(statement: &Statement) -> bool {
    match statement {
        Statement::Set(_, _, value) => is_carried(value),
        Statement::Emit(_, given) | Statement::Call(_, _, given) => match given.as_slice() {
            [value] => is_carried(value),
            _ => false,
        },
        _ => false,
    }
}

/// Whether the expression is just the first parameter.
fn is_carried(value: &Expr<MetaPath>) -> bool {
    match value {
        Expr::Path(path) => path.root == MetaRoot::Parameter(0) && path.steps.as_slice().is_empty(),
        _ => false,
    }
}
