//! Binding sites: what a program declares of bindings, by number.

ghost use Rattle.std.specs.Prelude.{◌≡◌, IfOk};

use basic_types::Name;
use sqlite_items::Items;
use std::alloc::{AllocError, Global};
use std::marker::Model;
use std::rc::Rc;
use syntax_trees::Expr;

/// A property of one of a binding's sources.
#[derive(Clone, Copy, Debug, PartialEq, Eq)]
pub struct SourceProperty {
    /// The source, by its place among the formal ones, from 0.
    pub source: usize,
    /// The property's number, in the class that the formal source is declared with and in every class below that.
    pub property: usize,
}

/// The expression of a binding site, which the site's bindings share.
pub struct Formula {
    expression: Rc<Expr<SourceProperty>>,
}

impl Drop for Formula {
    fn drop(self) {
        let Formula { expression: _ } = self;
    }
}

impl Model for Formula {
    ghost use Rattle.syntax_trees.specs.contracts.syntax.Expr as expr;
    ghost use Rattle.syntax_trees.specs.declared.syntax.Expr.{Expr};
    ghost use Rattle.meta_model.specs.contracts.site.SourceProperty as source;
    ghost use Rattle.meta_model.specs.declared.site.SourceProperty.{SourceProperty};

    ghost Value = { Expr SourceProperty };

    ghost coded = { (expr.the_row source.the_row).coded };

    ghost view = { λ formula. formula.expression.value };
}

impl Formula {
    /// The formula that is this expression.
    pub fn new(alloc: Global, expression: Expr<SourceProperty>) -> Result<Formula, AllocError>
        ensures { IfOk result (λ formula. formula ≡ expression) }
    {
        let expression = Rc::new(alloc, expression)?;
        Ok(Formula { expression })
    }

    /// The expression.
    pub fn expression(&self) -> &Expr<SourceProperty>
        ensures { result.now ≡ self.now }
    {
        self.expression.as_ref()
    }

    /// The same formula, which takes no memory: the expression is shared.
    pub fn copy(&self) -> Result<Formula, AllocError>
        ensures { IfOk result (λ copy. copy ≡ self.now) }
    {
        let expression = self.expression.clone()?;
        Ok(Formula { expression })
    }
}

/// A binding site, by the numbers of its classes and of the properties.
pub struct MetaSite {
    /// What the site is called.
    pub name: Name,
    /// The class of the target.
    pub class: usize,
    /// The property that is bound, in the target's class.
    pub property: usize,
    /// The classes of the formal sources, in their order.
    pub formals: Items<usize>,
    /// What the property is bound to.
    pub formula: Formula,
}

impl Drop for MetaSite {
    fn drop(self) {
        let MetaSite {
            name: _,
            class: _,
            property: _,
            formals: _,
            formula: _,
        } = self;
    }
}
