//! The objects below one.

ghost use Rattle.std.specs.Prelude.{◌≡◌, ◌++◌, IfOk, OnOk, IsSome};
ghost use Rattle.object_tree.specs.Family.{children_of};
ghost use Rattle.object_tree.specs.Forest.{Forest};
ghost use Rattle.object_tree.specs.Moving.{AreBelow};
ghost use Rattle.object_tree.specs.Objects.{life_of};

use crate::objects::Objects;
use basic_types::ObjectId;
use std::alloc::{AllocError, Global};

/// A living object and its living descendants, reached through living objects: each one's children come behind those that
/// are found already.
pub fn below(
    alloc: Global,
    objects: &Objects,
    object: ObjectId,
) -> Result<Vec<ObjectId>, AllocError>
    requires forest { Forest objects.now }
    requires lives { IsSome (life_of objects.now object) }
    ensures { IfOk result (λ found. AreBelow objects.now object found.items) }
{
    let mut found = Vec::new(alloc);
    found.push(object)?;
    let mut passed = 0;
    while passed < found.len() {
        let next = found[passed];
        push_children(objects, next, &mut found)?;
        passed += 1;
    }
    Ok(found)
}

/// Appends an object's children, in the order of adoption.
fn push_children(
    objects: &Objects,
    object: ObjectId,
    list: &mut Vec<ObjectId>,
) -> Result<(), AllocError>
    ensures { OnOk result (list.new.items ≡ list.old.items ++ children_of objects.now object) }
{
    match objects.get(object) {
        Some(found) => found.children.push_into(list),
        None => Ok(()),
    }
}
