//! The commands `run` and `run --unchecked`.

ghost use Rattle.std.specs.Prelude.{◌<◌, ◌≤◌, ◌^◌, List, length, map, OnErr};
ghost use Rattle.meta_model.specs.Loaded.{Loaded};
ghost use Rattle.certificate_lang.specs.declared.certificate.Certificate.{Certificate};
ghost use Rattle.texts.specs.Limits.{most_depth};
ghost use Rattle.script_lang.specs.declared.event.Event.{Event as AnEvent};
ghost use Rattle.trace_tool.specs.Outcomes.{Writes};
ghost use Rattle.class_lang.specs.Limits.{standard};
ghost use Rattle.command_lines.specs.Failing.{HasFailed};
ghost use Rattle.trace_tool.specs.Commands.{Accepts, AcceptedComesTo, RunComesTo, UncheckedRunComesTo};
ghost use Rattle.machine_rules.specs.Good.{AreSettled, HasArguments, IsAcyclic, IsTyped, Spares};
ghost use Rattle.object_machine.specs.Seen.{InEachRun};
ghost use Rattle.trace_tool.specs.Accepted.{WhereAccepted};

use crate::any_machine::{Outcome, Sent, prepare_run, prepare_unchecked_run, sent};
use class_lang::Limits;
use native_slots::{Answering, Natives};
use qt_runtime::Machine;
use std::alloc::Global;
use std::io::Write;

/// What `run` comes to: the run of a program on a script, or why there is none.
///
/// At most as many activations nest as the certificate's bound says, and at most `steps` rules are used (1 to 2^63 - 1).
/// Where it accepts, as `Accepts` says, the program runs, or there is no memory, and nothing is refused.
pub fn run_outcome(
    alloc: Global,
    program: &[u8],
    certificate: &[u8],
    script: &[u8],
    natives: Natives,
    steps: u64,
) -> Outcome<Machine<Natives>>
    requires steps { (1 ≤ steps) × (steps < 2 ^ 63) }
    ensures { let heads = map (λ slot. slot.head) natives.slots.items in
        RunComesTo standard ⟦<Natives as Answering>⟧.gives heads natives program.now certificate.now script.now steps result }
{
    prepare_run::<Natives, Machine<Natives>>(
        alloc,
        Limits::standard(),
        program,
        certificate,
        script,
        natives,
        steps,
    )
    .outcome()
}

/// Checks a program with its certificate, runs it on a script, and writes the trace, or why there is none.
///
/// At most as many activations nest as the certificate's bound says, and at most `steps` rules are used (1 to 2^63 - 1).
/// The answer is the exit status: 0 after a whole run, 4 after a fault, 3 where the certificate isn't valid, 2 where a
/// text or a native is refused, 1 where memory ran out outside the run.
/// Where it accepts, as `Accepts` says, the run's text is written, or `memory`, and nothing is refused; and of each run of
/// the machine, whatever events come, hold the claims: every call that is delivered has the arguments that its method
/// declares (`arguments`), no binding depends on itself (`acyclic`), no object dies while a body of its own is active
/// (`spared`), activations nest no deeper than the certificate's bound (`shallow`), every value is of its type (`typed`),
/// and all values are settled (`settled`).
/// There is a `WriteFault` only where a write failed (`failed`): what was taken by then is the beginning of what is written, and
/// nothing is written after that.
pub fn run<W: Write>(
    alloc: Global,
    program: &[u8],
    certificate: &[u8],
    script: &[u8],
    natives: Natives,
    steps: u64,
    w: &mut W,
) -> Sent
    requires steps { (1 ≤ steps) × (steps < 2 ^ 63) }
    ensures written { let heads = map (λ slot. slot.head) natives.slots.items in
        let ComesTo = RunComesTo standard ⟦<Natives as Answering>⟧.gives heads natives program.now certificate.now script.now steps in
        Writes ComesTo (W.contents w.old) (W.contents w.new) result.status }
    ensures accepted { let heads = map (λ slot. slot.head) natives.slots.items in
        (loaded : Loaded) (read : Certificate) (events : List AnEvent) →
        Accepts standard heads program.now certificate.now script.now loaded read events →
        let ComesTo = AcceptedComesTo ⟦<Natives as Answering>⟧.gives natives loaded read events steps in
        Writes ComesTo (W.contents w.old) (W.contents w.new) result.status }
    ensures failed { OnErr result.status (HasFailed result.writing) }
    ensures arguments { let heads = map (λ slot. slot.head) natives.slots.items in
        WhereAccepted standard heads natives program.now certificate.now script.now steps
        (λ m. InEachRun ⟦<Natives as Answering>⟧.gives m (HasArguments m.program)) }
    ensures acyclic { let heads = map (λ slot. slot.head) natives.slots.items in
        WhereAccepted standard heads natives program.now certificate.now script.now steps
        (λ m. InEachRun ⟦<Natives as Answering>⟧.gives m (λ s t. IsAcyclic t)) }
    ensures spared { let heads = map (λ slot. slot.head) natives.slots.items in
        WhereAccepted standard heads natives program.now certificate.now script.now steps
        (λ m. InEachRun ⟦<Natives as Answering>⟧.gives m Spares) }
    ensures shallow { let heads = map (λ slot. slot.head) natives.slots.items in
        WhereAccepted standard heads natives program.now certificate.now script.now steps
        (λ m. InEachRun ⟦<Natives as Answering>⟧.gives m (λ s t. length t.stack ≤ m.depth)) }
    ensures typed { let heads = map (λ slot. slot.head) natives.slots.items in
        WhereAccepted standard heads natives program.now certificate.now script.now steps
        (λ m. InEachRun ⟦<Natives as Answering>⟧.gives m (λ s t. IsTyped m.program t)) }
    ensures settled { let heads = map (λ slot. slot.head) natives.slots.items in
        WhereAccepted standard heads natives program.now certificate.now script.now steps
        (λ m. InEachRun ⟦<Natives as Answering>⟧.gives m (λ s t. AreSettled t)) }
{
    let prepared = prepare_run::<Natives, Machine<Natives>>(
        alloc,
        Limits::standard(),
        program,
        certificate,
        script,
        natives,
        steps,
    );
    sent(prepared.carry_out(alloc, w))
}

/// What `run --unchecked` comes to: the run of a program, which is read by these limits and need not be checked, on a script, or
/// why there is none.
///
/// At most `depth` activations nest (1 to 256), and at most `steps` rules are used (1 to 2^63 - 1).
pub fn unchecked_run_outcome(
    alloc: Global,
    limits: Limits,
    program: &[u8],
    script: &[u8],
    natives: Natives,
    depth: usize,
    steps: u64,
) -> Outcome<Machine<Natives>>
    requires depth { (1 ≤ depth) × (depth ≤ most_depth) }
    requires steps { (1 ≤ steps) × (steps < 2 ^ 63) }
    ensures { let heads = map (λ slot. slot.head) natives.slots.items in
        UncheckedRunComesTo limits ⟦<Natives as Answering>⟧.gives heads natives program.now script.now depth steps result }
{
    prepare_unchecked_run::<Natives, Machine<Natives>>(
        alloc, limits, program, script, natives, depth, steps,
    ).outcome()
}

/// Runs a program, which need not be checked, on a script, and writes the trace, or why there is none.
///
/// At most `depth` activations nest (1 to 256), and at most `steps` rules are used (1 to 2^63 - 1). The answer is the
/// exit status: 0 after a whole run, 4 after a fault, 2 where a text or a native is refused, 1 where memory ran out
/// outside the run.
/// There is a `WriteFault` only where a write failed (`failed`): what was taken by then is the beginning of what is written, and
/// nothing is written after that.
pub fn run_unchecked<W: Write>(
    alloc: Global,
    program: &[u8],
    script: &[u8],
    natives: Natives,
    depth: usize,
    steps: u64,
    w: &mut W,
) -> Sent
    requires depth { (1 ≤ depth) × (depth ≤ most_depth) }
    requires steps { (1 ≤ steps) × (steps < 2 ^ 63) }
    ensures written { let heads = map (λ slot. slot.head) natives.slots.items in
        let ComesTo = UncheckedRunComesTo standard ⟦<Natives as Answering>⟧.gives heads natives program.now script.now depth steps in
        Writes ComesTo (W.contents w.old) (W.contents w.new) result.status }
    ensures failed { OnErr result.status (HasFailed result.writing) }
{
    let prepared = prepare_unchecked_run::<Natives, Machine<Natives>>(
        alloc,
        Limits::standard(),
        program,
        script,
        natives,
        depth,
        steps,
    );
    sent(prepared.carry_out(alloc, w))
}
