//! The statements of bodies, whose names are resolved.

ghost use Rattle.std.specs.Prelude.{◌↔◌, IsTrue};
ghost use Rattle.meta_model.specs.Sound.{IsSet, AreSets};
ghost use Rattle.syntax_trees.specs.declared.syntax.Stmt.TheVariants.{Set, Emit, Call};
ghost use Rattle.name_resolution.specs.code.Bodies.{IsStatementOf, AreStatements};
ghost use Rattle.name_resolution.specs.code.Resolving.{scope, Resolves};

use crate::body_resolution::path::ResolvedTarget;
use crate::body_resolution::scope::Scope;
use crate::missing::{no_call, undeclared};
use basic_types::Name;
use class_outlines::{Missing, PartFault, Sought};
use meta_model::{OBJECT_NAME_CHANGED, Statement};
use sqlite_items::Items;
use syntax_trees::{Expr, Path, Stmt};

/// Whether the statement is a `set`.
fn is_set(statement: &Statement) -> bool
    ensures { IsTrue result ↔ IsSet statement.now }
{
    matches!(statement, Statement::Set(_, _, _))
}

/// Whether the statements are one `set` or more.
fn are_sets(statements: &[Statement]) -> bool
    ensures { IsTrue result ↔ AreSets statements.now }
{
    !statements.is_empty() && statements.iter().all(|statement| is_set(statement))
}

impl<'a> Scope<'a> {
    /// The statements of a body; `NoMember` where a name in one of them isn't there. So many of the slot's names were met,
    /// to which theirs are added.
    #[cycle(blocks)]
    pub fn resolve_block(
        &self,
        body: &[Stmt],
        met: &mut usize,
    ) -> Result<Items<Statement>, PartFault>
        ensures { Resolves (AreStatements (scope self.now) body.now) result }
    {
        let mut statements = Items::from_vec(Vec::with_capacity(self.alloc, body.len())?);
        for statement in body {
            let statement = self.resolve_statement(statement, met)?;
            statements.push(statement)?;
        }
        Ok(statements)
    }

    /// The statement.
    #[cycle(blocks)]
    fn resolve_statement(&self, statement: &Stmt, met: &mut usize) -> Result<Statement, PartFault>
        ensures { Resolves (IsStatementOf (scope self.now) statement.now) result }
    {
        match statement {
            Stmt::Set(path, name, value) => self.resolve_set(path, name, value, met),
            Stmt::Emit(name, values) => self.resolve_emit(name, values.as_slice(), met),
            Stmt::Call(path, name, values) => {
                self.resolve_call(path, name, values.as_slice(), met)
            }
            Stmt::If(test, chosen, other) => {
                let test = self.resolve_expr(test, met)?;
                let chosen = self.resolve_block(chosen.as_slice(), met)?;
                let other = self.resolve_block(other.as_slice(), met)?;
                Ok(Statement::If(test, chosen, other))
            }
            Stmt::Connect(ends, how) => {
                let ends = self.resolve_ends(ends, met)?;
                Ok(Statement::Connect(ends, *how))
            }
            Stmt::Disconnect(ends) => {
                let ends = self.resolve_ends(ends, met)?;
                Ok(Statement::Disconnect(ends))
            }
            Stmt::Delete(path) => {
                let path = self.resolve_reference(path, met)?;
                Ok(Statement::Delete(path))
            }
            Stmt::Later(path) => {
                let path = self.resolve_reference(path, met)?;
                Ok(Statement::Later(path))
            }
            Stmt::Group(sets) => {
                // `group` is a name of the text, too
                *met = met.saturating_add(1);
                let sets = self.resolve_block(sets.as_slice(), met)?;
                // the reader of bodies takes nothing else into a group
                if !are_sets(sets.as_slice()) {
                    return Err(undeclared(*met, Missing::Formal));
                }
                Ok(Statement::Group(sets))
            }
        }
    }

    /// `set path.p = e;`
    fn resolve_set(
        &self,
        path: &Path,
        name: &Name,
        value: &Expr<Path>,
        met: &mut usize,
    ) -> Result<Statement, PartFault>
        ensures { Resolves (IsStatementOf (scope self.now) (Set path.now name.now value.now)) result }
    {
        let ResolvedTarget {
            path,
            number,
            class,
        } = self.resolve_object(path, met)?;
        let Some((property, _)) = class.find_property(name) else {
            return Err(undeclared(*met, Missing::Property(number)));
        };
        *met = met.saturating_add(1);
        let value = self.resolve_expr(value, met)?;
        Ok(Statement::Set(path, property, value))
    }

    /// `emit s(e, ..);`
    fn resolve_emit(
        &self,
        name: &Name,
        values: &[Expr<Path>],
        met: &mut usize,
    ) -> Result<Statement, PartFault>
        ensures { Resolves (IsStatementOf (scope self.now) (Emit name.now values.now)) result }
    {
        let Some((number, class)) = self.outlines.find(self.me) else {
            return Err(undeclared(*met, Missing::Class));
        };
        let Some((signal, heading)) = class.find_call(name, values.len()) else {
            return Err(no_call(*met, number, class, name, Sought::Emitted(values.len())));
        };
        if signal <= OBJECT_NAME_CHANGED || !heading.is_signal() {
            return Err(no_call(*met, number, class, name, Sought::Emitted(values.len())));
        }
        *met = met.saturating_add(1);
        let values = self.resolve_exprs(values, met)?;
        Ok(Statement::Emit(signal, values))
    }

    /// `call path.m(e, ..);`
    fn resolve_call(
        &self,
        path: &Path,
        name: &Name,
        values: &[Expr<Path>],
        met: &mut usize,
    ) -> Result<Statement, PartFault>
        ensures { Resolves (IsStatementOf (scope self.now) (Call path.now name.now values.now)) result }
    {
        let ResolvedTarget {
            path,
            number,
            class,
        } = self.resolve_object(path, met)?;
        let Some((slot, heading)) = class.find_call(name, values.len()) else {
            return Err(no_call(*met, number, class, name, Sought::Called(values.len())));
        };
        if heading.is_signal() {
            return Err(no_call(*met, number, class, name, Sought::Called(values.len())));
        }
        *met = met.saturating_add(1);
        let values = self.resolve_exprs(values, met)?;
        Ok(Statement::Call(path, slot, values))
    }
}
