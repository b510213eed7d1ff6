//! What the sets of a body write.

ghost use Rattle.std.specs.Prelude.{◌≡◌, None, OnOk};
ghost use Rattle.std.specs.Option.{option_copied};
ghost use Rattle.meta_model.specs.declared.object.Statement.TheOpen.{Set};
ghost use Rattle.meta_model.specs.declared.object.Statement.TheViews.{out-Statement};
ghost use Rattle.run_context.specs.code.Scope.{set_of, sets_of, KeepsSet};
ghost use Rattle.run_context.specs.code.Coded.{Obtains};

use crate::statements::paths::Scope;
use basic_types::Value;
use expressions::EvalFault;
use indexmap::IndexMap;
use meta_model::{MetaPath, Statement};
use prop_bindings::{Assignment, Place};
use sqlite_items::Items;
use std::alloc::AllocError;
use syntax_trees::Expr;

impl<'w> Scope<'w> {
    /// What the sets of a group write, in their order; each reads what those before it wrote. `BadType` where one of them
    /// lacks a value that it needs.
    #[inline(never)]
    pub fn sets(&self, sets: &[Statement]) -> Result<Items<Option<Assignment>>, EvalFault>
        requires outside { option_copied self.now.written ≡ None }
        ensures { Obtains (sets_of self.now sets.now) result }
    {
        let mut written = IndexMap::new(self.alloc);
        let mut found = Items::new(self.alloc);
        for set in sets {
            let (objects, this, arguments) = (self.objects, self.this, self.arguments);
            let scope = Scope::in_group(self.alloc, objects, &written, this, arguments);
            let done = scope.set_of(set)?;
            keep(&mut written, &done)?;
            found.push(done)?;
        }
        Ok(found)
    }

    /// What a set writes; `BadType` for any other statement.
    fn set_of(&self, statement: &Statement) -> Result<Option<Assignment>, EvalFault>
        ensures { Obtains (set_of self.now (out-Statement statement.now)) result }
    {
        match statement {
            Statement::Set(path, property, value) => self.set(path, *property, value),
            _ => Err(EvalFault::BadType),
        }
    }

    /// What a set writes; nothing where its path leads to null, and `BadType` where it lacks a value that it needs.
    #[inline(always)]
    pub fn set(
        &self,
        path: &MetaPath,
        property: usize,
        value: &Expr<MetaPath>,
    ) -> Result<Option<Assignment>, EvalFault>
        ensures { Obtains (set_of self.now (Set path.now property value.now)) result }
    {
        let Some(object) = self.object_at(path)? else {
            return Ok(None);
        };
        let value = self.value_of(value)?;
        let place = Place { object, property };
        Ok(Some(Assignment { place, value }))
    }
}

/// Keeps what a set writes with what those before it wrote.
fn keep(
    written: &mut IndexMap<(usize, usize), Value>,
    set: &Option<Assignment>,
) -> Result<(), AllocError>
    ensures { OnOk result (KeepsSet written.old set.now written.new) }
{
    if let Some(set) = set {
        let value = set.value.copy()?;
        written.insert(set.place.key(), value)?;
    }
    Ok(())
}
