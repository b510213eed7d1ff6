//! Laws on what runs come to.

ghost use Rattle.trace_tool.specs.Laws.{UndoneIsALine, OneRunOutcome, OneSettlingRunOutcome, OneUncheckedOutcome, OneCommandOutcome, StoppedIsPrefix};

use native_slots::Answering;

/// Where nothing was done, which the exit status 1 tells, all that is written is the line `usage` or the line `memory`, or
/// nothing where a read failed.
pub fn undone_is_a_line<N: Answering>(_natives: &N)
    ensures { UndoneIsALine N }
{}

/// Where natives have one answer to one question, what each form of `run` comes to is determined by their arguments,
/// unless memory runs out: one refusal, or runs of which the one wrote a prefix of what the other did, and the same
/// where both took all events; where one did, the other wasn't stopped by the limit of rules. A run with a certificate
/// stops for nothing else but memory: so where one is whole each other one is, or had no memory.
pub fn one_run_outcome<N: Answering>(_natives: &N)
    ensures checked { OneRunOutcome N.gives }
    ensures settling { OneSettlingRunOutcome N.gives }
    ensures unchecked { OneUncheckedOutcome N.gives }
{}

/// What a whole command line comes to is determined so, too, by its words and by what was read; of several cycles, paths
/// or chains that show why a program has no certificate any one may be named.
pub fn one_command_outcome<N: Answering>(_natives: &N)
    ensures { OneCommandOutcome N.gives }
{}

/// Whatever natives may answer, a run that a fault stopped wrote a prefix of what each whole run of the same events writes in
/// which they answered alike: so does a run that ran out of memory, whose trace `fault 65` follows.
pub fn stopped_is_prefix<N: Answering>(_natives: &N)
    ensures { StoppedIsPrefix N.gives }
{}
