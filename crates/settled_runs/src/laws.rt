//! What holds where a settling certificate is valid.

ghost use Rattle.settled_runs.specs.Claims.{EachCarriesOne, EachChangesToCarried, EachIsShallow, EachRunIsFaultless, StopsAtLimits, StopsForFew};
ghost use Rattle.settled_runs.specs.Deaths.{DeathsKeep};
ghost use Rattle.settled_runs.specs.Handed.{ValueIsHanded};
ghost use Rattle.settled_runs.specs.Levels.{LevelsAreShallow, LevelsCarryOne};
ghost use Rattle.settled_runs.specs.Written.{WrittenOnce, WrittenStay, WrittenStayWithin};
ghost use Rattle.settled_runs.specs.Writes.{FollowersAreLow, FollowersLeave, NothingFollows};

use native_slots::Answering;
use settling::stacks_are_shallow;

/// What changes with properties that are written or bound is no higher than these: by its rank, its step and its destroy set.
pub fn followers_are_low()
    ensures { FollowersAreLow }
{}

/// What changes with a property of a set has a lower step, by what the set adds for each object.
pub fn followers_leave()
    ensures { FollowersLeave }
{}

/// Nothing follows from writes that leave what properties had, or that no binding reads.
pub fn nothing_follows()
    ensures { NothingFollows }
{}

/// Levels that stand above one another are no more than the certificate's bound, and its step for each object that was made.
pub fn levels_are_shallow()
    ensures { LevelsAreShallow }
{
    stacks_are_shallow();
}

/// Levels of one set carry one value, as it reads.
pub fn levels_carry_one()
    ensures { LevelsCarryOne }
{}

/// No level of a set has written a place that reads otherwise than what the set carries.
pub fn written_once()
    ensures { WrittenOnce }
{}

/// What levels wrote stays, whatever is written from above them: outside of the set of the highest one, or within it.
pub fn written_stay()
    ensures outside { WrittenStay }
    ensures within { WrittenStayWithin }
{}

/// Levels stay, with what they wrote, where objects die.
pub fn deaths_keep()
    ensures { DeathsKeep }
{}

/// A statement that hands its value on does what it does with what the first argument reads as.
pub fn value_is_handed()
    ensures { ValueIsHanded }
{}

/// In each run without a bad moment from the beginning, whatever these natives answer, activations nest no deeper than the
/// bound, and the step for each object that was made.
pub fn each_is_shallow<N: Answering>(_natives: &N)
    ensures { EachIsShallow (N.gives _natives.now) }
{
    stacks_are_shallow();
}

/// Such a run stops for a limit, for a value of a wrong type, or because the machine's depth is less than that: no object
/// dies while a body of it is active, and no chain of bindings closes.
pub fn stops_for_few<N: Answering>(_natives: &N)
    ensures { StopsForFew (N.gives _natives.now) }
{
    stacks_are_shallow();
}

/// In such a run, activations of one set carry one value, as it reads.
pub fn each_carries_one<N: Answering>(_natives: &N)
    ensures { EachCarriesOne (N.gives _natives.now) }
{}

/// No place of a set of which something is active comes to read otherwise than what the set carries.
pub fn each_changes_to_carried<N: Answering>(_natives: &N)
    ensures { EachChangesToCarried (N.gives _natives.now) }
{}

/// Where natives keep what the program declares of them, each step of each run from the beginning has its methods'
/// arguments, closes no chain of bindings, spares objects with active bodies, has all values of their types, leaves all
/// settled, and nests no deeper than the bound, and the step for each object that was made.
pub fn each_run_is_faultless<N: Answering>(_natives: &N)
    ensures { EachRunIsFaultless (N.takes _natives.now) (N.gives _natives.now) }
{
    stacks_are_shallow();
}

/// So such a run stops only since no rule is left, memory was refused, or the machine's depth is less than that.
pub fn stops_at_limits<N: Answering>(_natives: &N)
    ensures { StopsAtLimits (N.takes _natives.now) (N.gives _natives.now) }
{
    stacks_are_shallow();
}
