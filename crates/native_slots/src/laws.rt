//! What holds of the closures that are handed in.

ghost use Rattle.native_slots.specs.Fitting.{OneFitting};
ghost use Rattle.native_slots.specs.Misfits.{OneMisfit};

/// Closures fit a program in one way: each native has one that keeps to the effects declared, or they are refused for one
/// reason, of one native.
pub fn one_fitting()
    ensures fitting { OneFitting }
    ensures misfit { OneMisfit }
{}
