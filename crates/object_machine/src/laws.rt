//! What holds of every program, and of every run.

ghost use Rattle.object_machine.specs.FaultLaws.{OneFault};
ghost use Rattle.object_machine.specs.Laws.{AlwaysSettled, OnePrefix, OnePrefixOfAnswers, OneJudgement, OneRun, OneRunOfAnswers, OneTaking, RunReadsNoTrace, TakingSettles};

use native_slots::Answering;

/// An event is accepted with one effect or refused for one reason, and not both; but a bind that closes a chain of bindings
/// may have several effects.
pub fn one_judgement()
    ensures { OneJudgement }
{}

/// An event is taken with one answer, and at most one state follows by it, where no chain of bindings closes.
pub fn one_taking()
    ensures { OneTaking }
{}

/// Where each of these natives has one answer to one question, for one list of events, depth and number of rules there is
/// one run: two that go on until nothing is going on end in
/// the same state, with the same trace and the same rules left.
pub fn one_run<N: Answering>(_natives: &N)
    ensures { OneRun (N.gives _natives.now) }
{}

/// Whatever these natives may answer, of two whole runs of one list of events in which they answered alike both end in the
/// same state, with the same trace and the same rules left.
pub fn one_run_of_answers<N: Answering>(_natives: &N)
    ensures { OneRunOfAnswers (N.gives _natives.now) }
{}

/// Where they have, of two runs of fronts of one list of events, from one state and with as many rules left, one goes on where the other
/// ends, and its trace begins with the other's: a run that a fault stops has taken the way of every other one.
pub fn one_prefix<N: Answering>(_natives: &N)
    ensures { OnePrefix (N.gives _natives.now) }
{}

/// Whatever these natives may answer, of two runs of fronts of one list of events in which they answered alike one goes on
/// where the other ends, and its trace begins with the other's: so what a machine wrote that stopped, as memory ran out
/// or for another fault, is a prefix of what each longer run with these answers writes.
pub fn one_prefix_of_answers<N: Answering>(_natives: &N)
    ensures { OnePrefixOfAnswers (N.gives _natives.now) }
{}

/// Apart from memory, which may be refused whenever a rule is due, a state in which properties and bindings agree stops for
/// one fault at most, whatever these natives may answer and whatever events come next.
pub fn one_fault<N: Answering>(_natives: &N)
    ensures { OneFault (N.gives _natives.now) }
{}

/// The taking of an event that gives no value of a wrong type and closes no chain of bindings keeps properties and bindings
/// in agreement.
pub fn taking_settles()
    ensures { TakingSettles }
{}

/// In every state of a run without a bad moment all values are settled: each bound property has the value of its binding's expression.
pub fn always_settled<N: Answering>(_natives: &N)
    ensures { AlwaysSettled (N.gives _natives.now) }
{}

/// A run reads nothing of the trace, and only adds to it: one that goes on without what was written before is the same run.
pub fn run_reads_no_trace<N: Answering>(_natives: &N)
    ensures { RunReadsNoTrace (N.gives _natives.now) }
{}
