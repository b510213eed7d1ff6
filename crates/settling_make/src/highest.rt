//! Ranks that are above others.

ghost use Rattle.std.specs.Prelude.{◌≡◌, ◌⊎◌, ◌<◌, ◌≤◌, ◌+◌, ℕ, length, replicate, IfOk};
ghost use Rattle.std.specs.List.{Contains};
ghost use Rattle.rank_check.specs.Valid.{most_bound};
ghost use Rattle.settling_make.specs.Ranking.{IsHighest};

use sqlite_items::Items;
use std::alloc::{AllocError, Global};

/// The greatest of the values at these places, or 0.
pub fn highest_of(values: &[u32], places: &[usize]) -> u32
    requires { (b : ℕ) → Contains places.now b → b < length values.now }
    ensures { IsHighest values.now places.now result }
{
    let mut highest = 0;
    for place in places {
        let value = values[*place];
        if highest < value {
            highest = value;
        }
    }
    highest
}

/// The least rank that is at least so great, and above another one.
pub fn over(least: u32, rank: u32) -> u32
    requires { rank < most_bound }
    ensures least { least ≤ result }
    ensures over { rank < result }
    ensures met { (result ≡ least) ⊎ (result ≡ rank + 1) }
{
    if least <= rank { rank + 1 } else { least }
}

/// So many zeros. The error is that memory was refused.
pub fn zeros(alloc: Global, count: usize) -> Result<Items<u32>, AllocError>
    ensures { IfOk result (λ values. values ≡ replicate count 0) }
{
    let mut values = Vec::new(alloc);
    values.resize(count, 0)?;
    Ok(Items::from_vec(values))
}
