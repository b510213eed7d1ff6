//! What holds of every program that loads and has a valid certificate, for every list of events.

ghost use Rattle.trace_entries.specs.declared.fault.Fault.TheVariants.{BindingLoop, InUse, TooDeep};
ghost use Rattle.object_machine.specs.CheckedLaws.{EachIsFaultless, EachRunIsFaultless, NeverLacksValue, NeverStops, NeverStuck, StopsAtLimits};

use native_slots::Answering;

/// Activations never nest deeper than the certificate's bound, whatever these natives answer: no run stops with `TooDeep`.
pub fn never_too_deep<N: Answering>(_natives: &N)
    ensures { NeverStops TooDeep (N.gives _natives.now) }
{}

/// No object dies while a body of it is active: no run stops with `InUse`.
pub fn never_in_use<N: Answering>(_natives: &N)
    ensures { NeverStops InUse (N.gives _natives.now) }
{}

/// No chain of bindings leads from a property back to itself: no run stops with `BindingLoop`.
pub fn never_loops<N: Answering>(_natives: &N)
    ensures { NeverStops BindingLoop (N.gives _natives.now) }
{}

/// No expression lacks a value, and no condition a truth value.
pub fn never_lacks_value<N: Answering>(_natives: &N)
    ensures { NeverLacksValue (N.gives _natives.now) }
{}

/// What goes on is never without a next rule, but for what a native is to answer.
pub fn never_stuck<N: Answering>(_natives: &N)
    ensures { NeverStuck (N.gives _natives.now) }
{}

/// Where natives keep what the program declares of them, each step of each run from the beginning has its methods'
/// arguments, closes no chain of bindings, spares objects with active bodies, nests no deeper than the bound, has all
/// values of their types, and leaves all settled.
pub fn each_run_is_faultless<N: Answering>(_natives: &N)
    ensures { EachRunIsFaultless (N.takes _natives.now) (N.gives _natives.now) }
{}

/// Whatever may follow a state of such a run is so, also where no rule is left to carry it out.
pub fn each_is_faultless<N: Answering>(_natives: &N)
    ensures { EachIsFaultless (N.takes _natives.now) (N.gives _natives.now) }
{}

/// Where natives keep what the program declares of them, a run stops only since no rule is left, or memory was refused: no
/// value is ever of a wrong type either.
pub fn stops_at_limits<N: Answering>(_natives: &N)
    ensures { StopsAtLimits (N.takes _natives.now) (N.gives _natives.now) }
{}
