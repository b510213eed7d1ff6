//! The command `run --settling`.

ghost use Rattle.std.specs.Prelude.{◌<◌, ◌≤◌, ◌^◌, List, [], length, map, OnErr};
ghost use Rattle.meta_model.specs.Loaded.{Loaded};
ghost use Rattle.settling.specs.declared.certificate.SettlingCertificate.{SettlingCertificate};
ghost use Rattle.script_lang.specs.declared.event.Event.{Event as AnEvent};
ghost use Rattle.class_lang.specs.Limits.{standard};
ghost use Rattle.command_lines.specs.Failing.{HasFailed};
ghost use Rattle.machine_rules.specs.Good.{AreSettled, HasArguments, IsAcyclic, IsTyped, Spares};
ghost use Rattle.object_machine.specs.Seen.{InEachRun};
ghost use Rattle.settled_runs.specs.Claims.{CarriesOne, ChangesToCarried, most_deep};
ghost use Rattle.settled_runs.specs.Machine.{StopsAtLimitAlone};
ghost use Rattle.trace_tool.specs.Accepted.{WhereSettling};
ghost use Rattle.trace_tool.specs.Commands.{AcceptsSettling, AcceptedSettlingComesTo, SettlingRunComesTo};
ghost use Rattle.trace_tool.specs.Outcomes.{Writes};

use crate::any_machine::{Outcome, Sent, prepare_settling_run, sent};
use class_lang::Limits;
use native_slots::{Answering, Natives};
use qt_runtime::Machine;
use settling::stacks_are_shallow;
use std::alloc::Global;
use std::io::Write;

/// What `run --settling` comes to: the run of a program on a script, or why there is none.
///
/// At most 256 activations nest, and at most `steps` rules are used (1 to 2^63 - 1). Where it accepts, as `AcceptsSettling`
/// says, the program runs, or there is no memory, and nothing is refused.
pub fn settling_run_outcome(
    alloc: Global,
    program: &[u8],
    certificate: &[u8],
    script: &[u8],
    natives: Natives,
    steps: u64,
) -> Outcome<Machine<Natives>>
    requires steps { (1 ≤ steps) × (steps < 2 ^ 63) }
    ensures { let heads = map (λ slot. slot.head) natives.slots.items in
        SettlingRunComesTo standard ⟦<Natives as Answering>⟧.gives heads natives program.now certificate.now script.now steps result }
{
    prepare_settling_run::<Natives, Machine<Natives>>(
        alloc,
        Limits::standard(),
        program,
        certificate,
        script,
        natives,
        steps,
    )
    .outcome()
}

/// Checks a program with its settling certificate, runs it on a script, and writes the trace, or why there is none.
///
/// At most 256 activations nest, and at most `steps` rules are used (1 to 2^63 - 1). The answer is the exit status, as that of
/// [`crate::run`].
/// Where it accepts, as `AcceptsSettling` says, the run's text is written, or `memory`, and nothing is refused; and of each run
/// of the machine, whatever events come, hold the claims: every call that is delivered has the arguments that its method
/// declares (`arguments`), no binding depends on itself (`acyclic`), no object dies while a body of its own is active
/// (`spared`), activations nest no deeper than the certificate's bound, and its step for each object that was made
/// (`shallow`), every value is of its type (`typed`), and all values are settled (`settled`). Activations of one set carry one
/// value (`carries`), to which alone its places change meanwhile (`changes`). It stops for a limit alone, or since more than
/// 256 activations would nest, where the bound and the step for each object are more (`stops`).
/// There is a `WriteFault` only where a write failed (`failed`): what was taken by then is the beginning of what is written, and
/// nothing is written after that.
pub fn run_settling<W: Write>(
    alloc: Global,
    program: &[u8],
    certificate: &[u8],
    script: &[u8],
    natives: Natives,
    steps: u64,
    w: &mut W,
) -> Sent
    requires steps { (1 ≤ steps) × (steps < 2 ^ 63) }
    ensures written { let heads = map (λ slot. slot.head) natives.slots.items in
        let ComesTo = SettlingRunComesTo standard ⟦<Natives as Answering>⟧.gives heads natives program.now certificate.now script.now steps in
        Writes ComesTo (W.contents w.old) (W.contents w.new) result.status }
    ensures accepted { let heads = map (λ slot. slot.head) natives.slots.items in
        (loaded : Loaded) (read : SettlingCertificate) (events : List AnEvent) →
        AcceptsSettling standard heads program.now certificate.now script.now loaded read events →
        let ComesTo = AcceptedSettlingComesTo ⟦<Natives as Answering>⟧.gives natives loaded read events steps in
        Writes ComesTo (W.contents w.old) (W.contents w.new) result.status }
    ensures failed { OnErr result.status (HasFailed result.writing) }
    ensures arguments { let heads = map (λ slot. slot.head) natives.slots.items in
        WhereSettling standard heads natives program.now certificate.now script.now steps
        (λ read m. InEachRun ⟦<Natives as Answering>⟧.gives m (HasArguments m.program)) }
    ensures acyclic { let heads = map (λ slot. slot.head) natives.slots.items in
        WhereSettling standard heads natives program.now certificate.now script.now steps
        (λ read m. InEachRun ⟦<Natives as Answering>⟧.gives m (λ s t. IsAcyclic t)) }
    ensures spared { let heads = map (λ slot. slot.head) natives.slots.items in
        WhereSettling standard heads natives program.now certificate.now script.now steps
        (λ read m. InEachRun ⟦<Natives as Answering>⟧.gives m Spares) }
    ensures shallow { let heads = map (λ slot. slot.head) natives.slots.items in
        WhereSettling standard heads natives program.now certificate.now script.now steps
        (λ read m. InEachRun ⟦<Natives as Answering>⟧.gives m (λ s t. length t.stack ≤ most_deep read t)) }
    ensures typed { let heads = map (λ slot. slot.head) natives.slots.items in
        WhereSettling standard heads natives program.now certificate.now script.now steps
        (λ read m. InEachRun ⟦<Natives as Answering>⟧.gives m (λ s t. IsTyped m.program t)) }
    ensures settled { let heads = map (λ slot. slot.head) natives.slots.items in
        WhereSettling standard heads natives program.now certificate.now script.now steps
        (λ read m. InEachRun ⟦<Natives as Answering>⟧.gives m (λ s t. AreSettled t)) }
    ensures carries { let heads = map (λ slot. slot.head) natives.slots.items in
        WhereSettling standard heads natives program.now certificate.now script.now steps
        (λ read m. InEachRun ⟦<Natives as Answering>⟧.gives m (λ s t. CarriesOne m.program read t)) }
    ensures changes { let heads = map (λ slot. slot.head) natives.slots.items in
        WhereSettling standard heads natives program.now certificate.now script.now steps
        (λ read m. InEachRun ⟦<Natives as Answering>⟧.gives m (ChangesToCarried m.program read)) }
    ensures stops { let heads = map (λ slot. slot.head) natives.slots.items in
        WhereSettling standard heads natives program.now certificate.now script.now steps
        (StopsAtLimitAlone ⟦<Natives as Answering>⟧.gives) }
{
    stacks_are_shallow();
    let prepared = prepare_settling_run::<Natives, Machine<Natives>>(
        alloc,
        Limits::standard(),
        program,
        certificate,
        script,
        natives,
        steps,
    );
    sent(prepared.carry_out(alloc, w))
}
