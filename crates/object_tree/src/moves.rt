//! Objects that go to another event loop with all that is below them.

ghost use Rattle.std.specs.Prelude.{◌≡◌, IfOk, OnErr, Some};
ghost use Rattle.object_tree.specs.Forest.{Forest};
ghost use Rattle.object_tree.specs.Moving.{AreBelow, all_in_loop};
ghost use Rattle.object_tree.specs.Objects.{home_of};

use crate::objects::Objects;
use basic_types::{LoopId, ObjectId};
use std::alloc::{AllocError, Global};

/// A living object and its living descendants, reached through living objects, live in this loop from now on, and not in the
/// one in which they did; it tells which these are. Each is looked at once. Without memory nothing changes.
pub fn move_below(
    alloc: Global,
    objects: &mut Objects,
    object: ObjectId,
    from: LoopId,
    home: LoopId,
) -> Result<Vec<ObjectId>, AllocError>
    requires forest { Forest objects.old }
    requires lives { home_of objects.old object ≡ Some from }
    ensures below { IfOk result (λ found. AreBelow objects.old object found.items) }
    ensures moved { IfOk result (λ found. objects.new ≡ all_in_loop found.items home objects.old) }
    ensures back { IfOk result (λ found. all_in_loop found.items from objects.new ≡ objects.old) }
    ensures err { OnErr result (objects.new ≡ objects.old) }
{
    let mut found = Vec::new(alloc);
    found.push(object)?;
    let mut passed = 0;
    while passed < found.len() {
        let next = found[passed];
        match objects.rehouse(next, home, &mut found) {
            Ok(()) => passed += 1,
            Err(fault) => {
                objects.set_homes(&found[..passed], from);
                return Err(fault);
            }
        }
    }
    Ok(found)
}
