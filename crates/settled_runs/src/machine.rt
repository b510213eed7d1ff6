//! A machine for a program with a valid settling certificate.

ghost use Rattle.std.specs.Prelude.{◌≡◌, ◌<◌, ◌≤◌, ◌^◌, IfOk};
ghost use Rattle.texts.specs.Limits.{most_depth};
ghost use Rattle.machine_rules.specs.Natives.{KeepPromises};
ghost use Rattle.object_machine.specs.Claims.{HasItsArguments, IsEverAcyclic, IsEverSettled, IsEverTyped, SparesActive};
ghost use Rattle.object_machine.specs.Seen.{begun};
ghost use Rattle.settled_runs.specs.Machine.{EverCarriesOne, EverChangesToCarried, IsEverShallow, StopsAtLimitAlone};

use object_machine::ObjectMachine;
use settling::{Checked, stacks_are_shallow};
use std::alloc::{AllocError, Global};

/// A machine for a program whose settling certificate is valid, before anything has happened, with natives that keep what the
/// program declares of them. At most `depth` activations nest, from 1 to 256, and at most `steps` rules are used, from 1 to
/// 2^63 - 1.
///
/// Of each of its runs, whatever events come, hold the claims on a machine of a checked program
/// ([`ObjectMachine::checked`]), but that activations nest no deeper than the certificate's bound, and its step for each
/// object that was made (`shallow`). Activations of one set carry one value (`carries`), to which alone its places change
/// meanwhile (`changes`). And it stops with `Steps` or `Memory`, or with `TooDeep` where `depth` is less than the bound, and
/// the step for each object that was made by then (`stops`).
pub fn settling_machine<M: ObjectMachine>(
    alloc: Global,
    program: Checked,
    natives: M::Natives,
    depth: usize,
    steps: u64,
) -> Result<M, AllocError>
    requires depth { (1 ≤ depth) × (depth ≤ most_depth) }
    requires steps { (1 ≤ steps) × (steps < 2 ^ 63) }
    requires promises { KeepPromises M.Natives.takes M.Natives.gives program.program natives }
    ensures begins { IfOk result (λ machine. M.seen machine ≡ begun program.program natives depth steps) }
    ensures arguments { IfOk result (λ machine. HasItsArguments M.Natives.gives (M.seen machine)) }
    ensures acyclic { IfOk result (λ machine. IsEverAcyclic M.Natives.gives (M.seen machine)) }
    ensures spared { IfOk result (λ machine. SparesActive M.Natives.gives (M.seen machine)) }
    ensures shallow { IfOk result (λ machine. IsEverShallow M.Natives.gives program.certificate (M.seen machine)) }
    ensures typed { IfOk result (λ machine. IsEverTyped M.Natives.gives (M.seen machine)) }
    ensures settled { IfOk result (λ machine. IsEverSettled M.Natives.gives (M.seen machine)) }
    ensures carries { IfOk result (λ machine. EverCarriesOne M.Natives.gives program.certificate (M.seen machine)) }
    ensures changes { IfOk result (λ machine. EverChangesToCarried M.Natives.gives program.certificate (M.seen machine)) }
    ensures stops { IfOk result (λ machine. StopsAtLimitAlone M.Natives.gives program.certificate (M.seen machine)) }
{
    stacks_are_shallow();
    // The contract of `classes` says that the numbers in bodies are those of members.
    let _ = program.meta().classes();
    M::unchecked(alloc, program.into_meta(), natives, depth, steps)
}
