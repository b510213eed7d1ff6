//! Expressions whose names are resolved.

ghost use Rattle.std.specs.Prelude.{◌≡◌};
ghost use Rattle.name_resolution.specs.code.Bodies.{IsExpr, AreExprs};
ghost use Rattle.name_resolution.specs.code.Resolving.{scope, Resolves};

use crate::body_resolution::path::Led;
use crate::body_resolution::scope::Scope;
use crate::literals::literal_of;
use class_outlines::PartFault;
use meta_model::MetaPath;
use sqlite_items::{Boxed, Items};
use syntax_trees::{Expr, Path};

impl<'a> Scope<'a> {
    /// The expressions in their order; `NoMember` where a name in one of them isn't there. So many of the slot's names were
    /// met, to which theirs are added.
    pub fn resolve_exprs(
        &self,
        expressions: &[Expr<Path>],
        met: &mut usize,
    ) -> Result<Items<Expr<MetaPath>>, PartFault>
        ensures { Resolves (AreExprs (scope self.now) expressions.now) result }
    {
        let mut loaded = Items::from_vec(Vec::with_capacity(self.alloc, expressions.len())?);
        for expression in expressions {
            let expression = self.resolve_expr(expression, met)?;
            loaded.push(expression)?;
        }
        Ok(loaded)
    }

    /// The expression; `NoMember` where a name in it isn't there.
    pub fn resolve_expr(
        &self,
        expression: &Expr<Path>,
        met: &mut usize,
    ) -> Result<Expr<MetaPath>, PartFault>
        ensures { Resolves (IsExpr (scope self.now) expression.now) result }
    {
        match expression {
            Expr::Literal(value) => {
                let value = literal_of(value)?;
                Ok(Expr::Literal(value))
            }
            Expr::Path(path) => {
                let Led { path, kind: _ } = self.resolve_path(path, met)?;
                Ok(Expr::Path(path))
            }
            Expr::Unary(operator, operand) => {
                let operand = self.resolve_expr(operand.get(), met)?;
                let operand = Boxed::new(self.alloc, operand)?;
                Ok(Expr::Unary(*operator, operand))
            }
            Expr::Binary(operator, left, right) => {
                let left = self.resolve_expr(left.get(), met)?;
                let left = Boxed::new(self.alloc, left)?;
                let right = self.resolve_expr(right.get(), met)?;
                let right = Boxed::new(self.alloc, right)?;
                Ok(Expr::Binary(*operator, left, right))
            }
        }
    }
}
