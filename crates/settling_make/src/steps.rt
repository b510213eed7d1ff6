//! The least steps of components.

ghost use Rattle.std.specs.Prelude.{◌≡◌, ◌<◌, ◌≤◌, ◌+◌, ℕ, length, IfOk, MatchOption};
ghost use Rattle.effect_scan.specs.Rows.{Edge};
ghost use Rattle.token_reading.specs.Literals.{greatest};
ghost use Rattle.settling_make.specs.Fits.{AreLeastSteps, StepsAreHigh};

use crate::highest::highest_of;
use crate::margin::Margin;
use effect_scan::{Targets, targets_at};
use sqlite_items::Items;
use std::alloc::{AllocError, Global};
use token_reading::GREATEST;

/// The least steps of components, each of which leads to some before it; `None` where one is greater than a number of a certificate's
/// text may be. Takes time linear in the edges between components. The error is that memory was refused.
pub fn steps_of(
    alloc: Global,
    outer: &[Targets],
    margins: &[Margin],
) -> Result<Option<Items<u32>>, AllocError>
    requires count { length outer.now ≡ length margins.now }
    requires falls { (k j : ℕ) → Edge outer.now k j → j < k }
    ensures { IfOk result (λ found. MatchOption found
        (StepsAreHigh outer.now margins.now)
        (AreLeastSteps outer.now margins.now)) }
{
    let mut steps = Items::new(alloc);
    for (component, margin) in margins.iter().enumerate() {
        let highest = highest_of(steps.as_slice(), targets_at(outer, component));
        match raised(highest, margin.cost) {
            Some(step) => steps.push(step)?,
            None => return Ok(None),
        }
    }
    Ok(Some(steps))
}

/// The step with so much more, or `None` where a text can't hold it.
fn raised(step: u32, cost: u128) -> Option<u32>
    ensures { MatchOption result (greatest < step + cost) (λ higher. (higher ≡ step + cost) × (higher ≤ greatest)) }
{
    if cost > GREATEST as u128 {
        return None;
    }
    let higher = step as u64 + cost as u64;
    if higher <= GREATEST as u64 {
        Some(higher as u32)
    } else {
        None
    }
}
