//! What is left of a body.

ghost use Rattle.std.specs.Prelude.{◌≡◌, [], ◌∷◌, ◌++◌, OnOk, OnErr, MatchOption};

use meta_model::Statement;
use std::alloc::{AllocError, Global};
use std::marker::Model;

/// The statements that are left of a body. A block that is chosen comes before what follows, and needs no place on the
/// host's stack.
#[derive(Drop)]
pub struct Remaining<'p> {
    block: &'p [Statement],
    outer: Vec<&'p [Statement]>,
}

impl<'p> Model for Remaining<'p> {
    ghost use Rattle.std.specs.Coded.{codes};
    ghost use Rattle.std.specs.Prelude.{List, ◌++◌};
    ghost use Rattle.meta_model.specs.contracts.object.Statement as statement;
    ghost use Rattle.meta_model.specs.declared.object.Statement.{Statement};
    ghost use Rattle.rule_interpreter.specs.code.Remaining.{of_blocks};

    ghost Value = { List Statement };

    ghost coded = { Prim.hlevel (codes, statement.the_row.coded) };

    ghost view = { λ r. r.block.now ++ of_blocks r.outer.items };
}

impl<'p> Remaining<'p> {
    /// All statements of a body.
    pub fn all(alloc: Global, statements: &'p [Statement]) -> Remaining<'p>
        ensures { result ≡ statements.now }
    {
        Remaining {
            block: statements,
            outer: Vec::new(alloc),
        }
    }

    /// Takes the next statement; `None` where none is left.
    pub fn next(&mut self) -> Option<&'p Statement>
        ensures { MatchOption result ((self.old ≡ []) × (self.new ≡ []))
            (λ x. self.old ≡ x.now ∷ self.new) }
    {
        while self.block.is_empty() {
            let Some(outer) = self.outer.pop() else {
                return None;
            };
            self.block = outer;
        }
        let (first, rest) = self.block.split_first()?;
        self.block = rest;
        Some(first)
    }

    /// Puts a block before what is left; without memory nothing changes. Behind the last statement of a block no memory is
    /// needed.
    pub fn put(&mut self, block: &'p [Statement]) -> Result<(), AllocError>
        ensures ok { OnOk result (self.new ≡ block.now ++ self.old) }
        ensures err { OnErr result (self.new ≡ self.old) }
    {
        if self.block.is_empty() {
            self.block = block;
            return Ok(());
        }
        self.outer.push(self.block)?;
        self.block = block;
        Ok(())
    }
}
