//! The destroy sets that certificates name.

ghost use Rattle.std.specs.Prelude.{◌≡◌, ◌<◌, ℕ, length, slice_get, Some, IfOk};
ghost use Rattle.effect_scan.specs.Scans.{IsScan};
ghost use Rattle.settling.specs.code.Standings.{FindsDestroySets};

use crate::certificate::SettlingLine;
use class_sets::ClassSet;
use effect_scan::Scan;
use meta_model::Meta;
use rank_check::destroy_set;
use sqlite_items::Items;
use std::alloc::{AllocError, Global};

/// The sets of the lines at these places, or `None` where one names a class that isn't there. Its error is that memory was
/// refused.
pub fn destroy_sets(
    alloc: Global,
    meta: &Meta,
    scan: &Scan,
    lines: &[SettlingLine],
    places: &[usize],
) -> Result<Option<Items<ClassSet>>, AllocError>
    requires scan { IsScan meta.now scan.now }
    requires inside { (n k : ℕ) → slice_get places.now n ≡ Some k → k < length lines.now }
    ensures { IfOk result (FindsDestroySets meta.now lines.now places.now) }
{
    let mut sets = Items::from_vec(Vec::with_capacity(alloc, places.len())?);
    for place in places {
        let line = &lines[*place];
        match destroy_set(alloc, meta, scan, line.destroys.as_slice())? {
            Ok(set) => sets.push(set)?,
            Err(_) => return Ok(None),
        }
    }
    Ok(Some(sets))
}
