//! Which classes are below which.

ghost use Rattle.std.specs.Prelude.{◌≡◌, ◌<◌, length, IfOk};
ghost use Rattle.meta_model.specs.Members.{Below};
ghost use Rattle.effect_scan.specs.code.Adding.{Adds};
ghost use Rattle.effect_scan.specs.code.NodePlaces.{AreJust, IsLineage};

use crate::added::Added;
use crate::rows::{empty_rows, join};
use crate::targets::Targets;
use meta_model::Meta;
use sqlite_items::Items;
use std::alloc::{AllocError, Global};

/// For each class, those that are it or below it; its error is that memory was refused. Time is linear in the classes, each with
/// those above it.
pub fn lineage(alloc: Global, meta: &Meta) -> Result<Items<Targets>, AllocError>
    ensures { IfOk result (IsLineage meta.now) }
{
    let mut rows = empty_rows(alloc, meta.classes().len())?;
    add_lineage(alloc, meta, rows.as_mut_slice())?;
    Ok(Items::from_vec(rows))
}

/// Adds each class to the rows of those that it is or is below.
fn add_lineage(alloc: Global, meta: &Meta, rows: &mut [Targets]) -> Result<(), AllocError>
    requires { length rows.old ≡ length meta.now.classes }
    ensures { IfOk result (λ _. Adds (λ c d. Below meta.now d c) rows.old rows.new) }
{
    for class in 0..rows.len() {
        let above = classes_above(alloc, meta, class)?;
        join(alloc, rows, above.as_slice(), &[class])?;
    }
    Ok(())
}

/// The classes that this one is or is below.
fn classes_above(alloc: Global, meta: &Meta, class: usize) -> Result<Added, AllocError>
    requires { class < length meta.now.classes }
    ensures { IfOk result (AreJust (Below meta.now class)) }
{
    let mut found = Added::new(alloc);
    let mut above = class;
    'climb: loop {
        found.add(above)?;
        match meta.base(above) {
            Some(base) => above = base,
            None => return Ok(found),
        }
    }
}
