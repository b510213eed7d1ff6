//! The sets of classes that certificates name.

ghost use Rattle.std.specs.Prelude.{◌≡◌, [], length, IfOk};
ghost use Rattle.effect_scan.specs.Scans.{IsScan};
ghost use Rattle.rank_check.specs.Entries.{FindsSet, AddsItem};

use basic_types::Shared;
use certificate_lang::SetItem;
use class_sets::ClassSet;
use effect_scan::{Scan, row_at};
use meta_model::Meta;
use std::alloc::{AllocError, Global};

/// The set of the classes that these items stand for, or the place of the first one whose class isn't there; without items it is
/// the empty set that is given. Its error is that memory was refused.
pub fn shared_set(
    alloc: Global,
    meta: &Meta,
    scan: &Scan,
    items: &[SetItem],
    empty: &Shared<ClassSet>,
) -> Result<Result<Shared<ClassSet>, usize>, AllocError>
    requires scan { IsScan meta.now scan.now }
    requires empty { empty.now ≡ [] }
    ensures { IfOk result (FindsSet meta.now items.now) }
{
    if items.is_empty() {
        let set = empty.copy()?;
        return Ok(Ok(set));
    }
    match destroy_set(alloc, meta, scan, items)? {
        Ok(set) => {
            let set = Shared::new(alloc, set)?;
            Ok(Ok(set))
        }
        Err(place) => Ok(Err(place)),
    }
}

/// The set of the classes that these items of a certificate stand for, or the place of the first one whose class isn't there. Its
/// error is that memory was refused. Time is linear in the items, each with the classes that it stands for.
pub fn destroy_set(
    alloc: Global,
    meta: &Meta,
    scan: &Scan,
    items: &[SetItem],
) -> Result<Result<ClassSet, usize>, AllocError>
    requires { IsScan meta.now scan.now }
    ensures { IfOk result (FindsSet meta.now items.now) }
{
    if items.is_empty() {
        return Ok(Ok(ClassSet::empty(alloc)));
    }
    let mut set = ClassSet::with_room(alloc, meta.classes().len())?;
    for (place, item) in items.iter().enumerate() {
        if !add_item(meta, scan, item, &mut set) {
            return Ok(Err(place));
        }
    }
    Ok(Ok(set))
}

/// Adds the classes that the item stands for to the set, or tells by `false` that its class isn't there.
fn add_item(meta: &Meta, scan: &Scan, item: &SetItem, set: &mut ClassSet) -> bool
    requires scan { IsScan meta.now scan.now }
    requires count { length set.old ≡ length meta.now.classes }
    ensures { AddsItem meta.now item.now set.old result set.new }
{
    match item {
        SetItem::Class(name) => match meta.class(name) {
            Some(class) => {
                set.add(class);
                true
            }
            None => false,
        },
        SetItem::Closure(name) => match meta.class(name) {
            Some(class) => {
                set.add_all(row_at(scan.destroys(), class));
                true
            }
            None => false,
        },
    }
}
