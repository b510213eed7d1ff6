//! The indexes of classes' members, which the classes share with their outlines.

ghost use Rattle.std.specs.Prelude.{IfOk};
ghost use Rattle.std.specs.List.{AllZip};
ghost use Rattle.meta_objects.specs.code.Outlined.{IndexesOutlined};

use class_outlines::IndexedOutline;
use meta_model::MemberIndex;
use sqlite_items::Items;
use std::alloc::{AllocError, Global};

/// The indexes of the classes' members, in the classes' order.
pub fn index_members(
    alloc: Global,
    outlines: &[IndexedOutline],
) -> Result<Items<MemberIndex>, AllocError>
    ensures { IfOk result (AllZip IndexesOutlined outlines.now) }
{
    let mut members = Items::new(alloc);
    for outline in outlines {
        let index = index_of(alloc, outline)?;
        members.push(index)?;
    }
    Ok(members)
}

/// The index of the class's members.
fn index_of(alloc: Global, outline: &IndexedOutline) -> Result<MemberIndex, AllocError>
    ensures { IfOk result (IndexesOutlined outline.now) }
{
    let properties = outline.property_index().copy(alloc)?;
    let methods = outline.method_index().copy(alloc)?;
    Ok(MemberIndex {
        properties,
        methods,
    })
}
