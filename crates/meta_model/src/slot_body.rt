ghost use Rattle.std.specs.Prelude.{◌≡◌, IfOk};

use crate::object::Statement;
use sqlite_items::Items;
use std::alloc::{AllocError, Global};
use std::marker::Model;
use std::rc::Rc;

/// The statements of a slot, which the classes that inherit it share.
pub struct SlotBody {
    statements: Rc<Items<Statement>>,
}

impl Drop for SlotBody {
    fn drop(self) {
        let SlotBody { statements: _ } = self;
    }
}

impl Model for SlotBody {
    ghost use Rattle.std.specs.Prelude.{List};
    ghost use Rattle.std.specs.Coded.{codes};
    ghost use Rattle.meta_model.specs.contracts.object.Statement as statement;
    ghost use Rattle.meta_model.specs.declared.object.Statement.{Statement};

    ghost Value = { List Statement };

    ghost coded = { Prim.hlevel (codes, statement.the_row.coded) };

    ghost view = { λ body. body.statements.value };
}

impl SlotBody {
    /// A body of these statements.
    pub fn new(alloc: Global, statements: Items<Statement>) -> Result<SlotBody, AllocError>
        ensures { IfOk result (λ body. body ≡ statements) }
    {
        let statements = Rc::new(alloc, statements)?;
        Ok(SlotBody { statements })
    }

    /// The statements in their order.
    pub fn as_slice(&self) -> &[Statement]
        ensures { result.now ≡ self.now }
    {
        self.statements.as_ref().as_slice()
    }

    /// The same body, which takes no memory: the statements are shared.
    pub fn copy(&self) -> Result<SlotBody, AllocError>
        ensures { IfOk result (λ copy. copy ≡ self.now) }
    {
        let statements = self.statements.clone()?;
        Ok(SlotBody { statements })
    }
}
