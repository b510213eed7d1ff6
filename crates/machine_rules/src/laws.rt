//! What holds of every program.

ghost use Rattle.machine_rules.specs.Laws.{OneRule, RuleSettles, StaysSettled};

use native_slots::Answering;

/// From one state, in which properties and bindings agree, at most one follows by a rule, where each of these natives has
/// one answer to one question.
pub fn one_rule<N: Answering>(_natives: &N)
    ensures { OneRule (N.gives _natives.now) }
{}

/// A rule that gives no value of a wrong type keeps properties and bindings in agreement.
pub fn rule_settles<N: Answering>(_natives: &N)
    ensures { RuleSettles (N.gives _natives.now) }
{}

/// In every state of a run without a bad moment properties and bindings agree: all values are settled.
pub fn stays_settled<N: Answering>(_natives: &N)
    ensures { StaysSettled (N.gives _natives.now) }
{}
