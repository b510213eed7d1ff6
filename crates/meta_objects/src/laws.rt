//! What holds of every program.

ghost use Rattle.meta_objects.specs.Builds.{OneAsDeclared, OneLoading, OneAnswer};

/// Where no class and no member of a program appears twice, and its bases are there, at most one loaded program is the
/// program as declared: what is said of a loaded program leaves nothing open.
pub fn one_as_declared()
    ensures { OneAsDeclared }
{}

/// A program has at most one loaded form.
pub fn one_loading()
    ensures { OneLoading }
{}

/// A program has one answer, unless memory runs out: one refusal, or one loaded form.
pub fn one_answer()
    ensures { OneAnswer }
{}
