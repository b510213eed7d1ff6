//! What holds of valid settling certificates.

ghost use Rattle.settling.specs.Laws.{SetsSettle, EachHasAlike};
ghost use Rattle.settling.specs.Levels.{StacksAreShallow};
ghost use Rattle.settling.specs.Following.{OthersStay, NothingFollows};

/// The sets of a valid certificate settle.
pub fn sets_settle()
    ensures { SetsSettle }
{}

/// A program with a valid certificate without steps has a valid settling one with the same bound, and the step 0.
pub fn each_has_alike()
    ensures { EachHasAlike }
{}

/// A stack whose levels are so is no deeper than the bound, and the step for each object that was made.
pub fn stacks_are_shallow()
    ensures { StacksAreShallow }
{}

/// Where one property is written, those that aren't so low keep their values.
pub fn others_stay()
    ensures { OthersStay }
{}

/// Nothing follows from a write of the value that a property had.
pub fn nothing_follows()
    ensures { NothingFollows }
{}
