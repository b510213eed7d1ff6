//! The bound and the step of a settling certificate that is made.

ghost use Rattle.std.specs.Prelude.{◌<◌, ℕ};
ghost use Rattle.rank_check.specs.Valid.{most_bound};
ghost use Rattle.settling_make.specs.Fits.{at_place};
ghost use Rattle.settling_make.specs.Makes.{IsJustAbove, IsGreatest};

use crate::highest::over;

/// The least number above all of these ranks.
pub fn just_above(ranks: &[u32]) -> u32
    requires { (a : ℕ) → at_place ranks.now a < most_bound }
    ensures { IsJustAbove ranks.now result }
{
    let mut bound = 0;
    for rank in ranks {
        bound = over(bound, *rank);
    }
    bound
}

/// The greatest of these steps, or 0.
pub fn greatest_of(steps: &[u32]) -> u32
    ensures { IsGreatest steps.now result }
{
    let mut greatest = 0;
    for step in steps {
        if greatest < *step {
            greatest = *step;
        }
    }
    greatest
}
