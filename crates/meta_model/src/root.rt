//! What a loaded program has of the class `QObject` that no program writes.

ghost use Rattle.std.specs.Prelude.{◌≡◌, IfOk};
ghost use Rattle.meta_model.specs.Root.{delete_later_body};

use crate::object::{MetaPath, MetaRoot, Statement};
use crate::slot_body::SlotBody;
use sqlite_items::Items;
use std::alloc::{AllocError, Global};

/// The body of `deleteLater()`: `later this;`.
pub fn delete_later_body(alloc: Global) -> Result<SlotBody, AllocError>
    ensures { IfOk result (λ body. body ≡ delete_later_body) }
{
    let mut statements = Items::new(alloc);
    let this = MetaPath {
        root: MetaRoot::This,
        steps: Items::new(alloc),
    };
    statements.push(Statement::Later(this))?;
    SlotBody::new(alloc, statements)
}
