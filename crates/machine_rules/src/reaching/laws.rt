//! What holds of every run.

ghost use Rattle.machine_rules.specs.ReachingLaws.{RulesKeep};

use native_slots::Answering;

/// Rules without a bad moment keep objects where they are and what is written down, and use up what is left of them.
pub fn rules_keep<N: Answering>(_natives: &N)
    ensures { RulesKeep (N.gives _natives.now) }
{}
