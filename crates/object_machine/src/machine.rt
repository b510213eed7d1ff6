//! The calls of a machine that runs programs.

ghost use Rattle.std.specs.Prelude.{◌≡◌, ◌↔◌, ◌<◌, ◌≤◌, ◌^◌, ◌∷◌, [], Err, IfOk, IfErr, true, false, None};
ghost use Rattle.trace_entries.specs.declared.fault.Fault.TheVariants.{Steps};
ghost use Rattle.texts.specs.Limits.{most_depth};
ghost use Rattle.machine_rules.specs.Natives.{KeepPromises};
ghost use Rattle.object_machine.specs.Checked.{IsChecked, StopsAtLimit};
ghost use Rattle.object_machine.specs.Claims.{HasItsArguments, IsEverAcyclic, IsEverSettled, IsEverShallow, IsEverTyped, SparesActive};
ghost use Rattle.object_machine.specs.Seen.{AreKept, Completes, RefusesExactly, IsSettled, Seen, Stops, RunsAll, begun, cleared};

use meta_model::Meta;
use native_slots::Answering;
use rank_check::Checked;
use script_lang::Event;
use std::alloc::{AllocError, Global};
use trace_entries::{Answer, Entry, Fault, Trace};

/// A run of a program, event by event: what `qt_runtime`'s `Machine` does. Commands are written over any machine with these
/// calls, so that they are proved from what the calls promise alone.
pub trait ObjectMachine: Drop {
    /// What answers the calls of natives.
    type Natives: Answering;

    /// What contracts see of a machine.
    ghost seen: { Self → Seen Self.Natives };

    /// A machine for a program that need not be checked, before anything has happened, with natives that keep what the
    /// program declares of them ([`native_slots::Natives::fits`] tells). At most `depth` activations
    /// nest, from 1 to 256, and at most `steps` rules are used, from 1 to 2^63 - 1.
    fn unchecked(
        alloc: Global,
        meta: Meta,
        natives: Self::Natives,
        depth: usize,
        steps: u64,
    ) -> Result<Self, AllocError>
        requires depth { (1 ≤ depth) × (depth ≤ most_depth) }
        requires steps { (1 ≤ steps) × (steps < 2 ^ 63) }
        requires promises { KeepPromises Self.Natives.takes Self.Natives.gives meta natives }
        ensures { IfOk result (λ machine. seen machine ≡ begun meta natives depth steps) };

    /// A machine for a program whose certificate is valid: it nests as many activations as the certificate's bound says.
    /// The rest is as in [`ObjectMachine::unchecked`]. Whatever events it is given, it never stops with `BadType`, `InUse`,
    /// `BindingLoop` or `TooDeep`, and of each of its runs it is known what [`ObjectMachine::apply`] says.
    fn checked(
        alloc: Global,
        program: Checked,
        natives: Self::Natives,
        steps: u64,
    ) -> Result<Self, AllocError>
        requires steps { (1 ≤ steps) × (steps < 2 ^ 63) }
        requires promises { KeepPromises Self.Natives.takes Self.Natives.gives
            program.program natives }
        ensures begins { IfOk result (λ machine. seen machine
            ≡ begun program.program natives program.certificate.bound steps) }
        ensures checked { IfOk result (λ machine. IsChecked Self.Natives.gives (seen machine)) }
        ensures arguments { IfOk result (λ machine. HasItsArguments Self.Natives.gives (seen machine)) }
        ensures acyclic { IfOk result (λ machine. IsEverAcyclic Self.Natives.gives (seen machine)) }
        ensures spared { IfOk result (λ machine. SparesActive Self.Natives.gives (seen machine)) }
        ensures shallow { IfOk result (λ machine. IsEverShallow Self.Natives.gives (seen machine)) }
        ensures typed { IfOk result (λ machine. IsEverTyped Self.Natives.gives (seen machine)) }
        ensures settled { IfOk result (λ machine. IsEverSettled Self.Natives.gives (seen machine)) };

    /// Applies an event: takes it, and runs until nothing is going on. `Refused` tells the first of the event's
    /// conditions that doesn't hold, exactly where one doesn't; then only its line is written. A fault stops the machine:
    /// `BadType` where the next statement lacks a value that it needs, or the next rule would give a value of a wrong
    /// type; `InUse` where by it an object would die while a body of it is active; `BindingLoop` where a chain of
    /// bindings would lead from a property back to itself; `TooDeep` where it would nest activations deeper than the
    /// depth; `Steps` where a rule is due and none is left; `Memory` where a growth of memory was refused. The machine
    /// then stands, stores and trace, where the last whole rule left it, and from then on the answer is `Stopped`, and
    /// nothing changes.
    ///
    /// A machine of a checked program stays one, and stops with `Steps` or `Memory` alone. In each of its runs every call
    /// that is delivered has the arguments that its method declares (`arguments`), no binding depends on itself (`acyclic`),
    /// no object dies while a body of its own is active (`spared`), activations nest no deeper than the depth (`shallow`),
    /// every value is of its type (`typed`), and all values are settled (`settled`).
    fn apply(&mut self, event: &Event) -> Result<Answer, Fault>
        requires { AreKept Self.Natives.takes Self.Natives.gives (seen self.old) }
        ensures taken { IfOk result (λ answer. Completes Self.Natives.gives
            (seen self.old) (event.now ∷ []) (answer ∷ []) (seen self.new)) }
        ensures refused { IfOk result
            (λ answer. RefusesExactly (seen self.old) event.now answer (seen self.new)) }
        ensures stopped { IfErr result (λ fault. Stops Self.Natives.gives
            (seen self.old) (event.now ∷ []) fault (seen self.new)) }
        ensures spent { let before = seen self.old in let after = seen self.new in
            before.stopped ≡ false
            → (result ≡ Err Steps) ↔ ((after.stopped ≡ true) × (after.world.left ≡ 0)) }
        ensures left_settled { IfOk result (λ _. IsSettled (seen self.new)) }
        ensures kept { AreKept Self.Natives.takes Self.Natives.gives (seen self.new) }
        ensures checked { IsChecked Self.Natives.gives (seen self.old)
            → IsChecked Self.Natives.gives (seen self.new)
            × IfErr result (StopsAtLimit (seen self.old)) }
        ensures arguments { IsChecked Self.Natives.gives (seen self.old)
            → HasItsArguments Self.Natives.gives (seen self.old) }
        ensures acyclic { IsChecked Self.Natives.gives (seen self.old)
            → IsEverAcyclic Self.Natives.gives (seen self.old) }
        ensures spared { IsChecked Self.Natives.gives (seen self.old)
            → SparesActive Self.Natives.gives (seen self.old) }
        ensures shallow { IsChecked Self.Natives.gives (seen self.old)
            → IsEverShallow Self.Natives.gives (seen self.old) }
        ensures typed { IsChecked Self.Natives.gives (seen self.old)
            → IsEverTyped Self.Natives.gives (seen self.old) }
        ensures settled { IsChecked Self.Natives.gives (seen self.old)
            → IsEverSettled Self.Natives.gives (seen self.old) };

    /// Applies events in their order until a fault comes, as `apply` does each. A machine of a checked program stays one,
    /// and stops with `Steps` or `Memory` alone; each of its runs is as `apply` says.
    fn run(&mut self, events: &[Event]) -> Result<(), Fault>
        requires { AreKept Self.Natives.takes Self.Natives.gives (seen self.old) }
        ensures ran { RunsAll Self.Natives.gives (seen self.old) events.now result (seen self.new) }
        ensures kept { AreKept Self.Natives.takes Self.Natives.gives (seen self.new) }
        ensures checked { IsChecked Self.Natives.gives (seen self.old)
            → IsChecked Self.Natives.gives (seen self.new)
            × IfErr result (StopsAtLimit (seen self.old)) }
        ensures arguments { IsChecked Self.Natives.gives (seen self.old)
            → HasItsArguments Self.Natives.gives (seen self.old) }
        ensures acyclic { IsChecked Self.Natives.gives (seen self.old)
            → IsEverAcyclic Self.Natives.gives (seen self.old) }
        ensures spared { IsChecked Self.Natives.gives (seen self.old)
            → SparesActive Self.Natives.gives (seen self.old) }
        ensures shallow { IsChecked Self.Natives.gives (seen self.old)
            → IsEverShallow Self.Natives.gives (seen self.old) }
        ensures typed { IsChecked Self.Natives.gives (seen self.old)
            → IsEverTyped Self.Natives.gives (seen self.old) }
        ensures settled { IsChecked Self.Natives.gives (seen self.old)
            → IsEverSettled Self.Natives.gives (seen self.old) };

    /// The program that it runs.
    fn meta(&self) -> &Meta
        ensures { let now = seen self.now in result.now ≡ now.program };

    /// Whether a fault has stopped the machine. Unless one has, no turn goes on.
    fn is_stopped(&self) -> bool
        ensures value { let now = seen self.now in result ≡ now.stopped }
        ensures idle { let now = seen self.now in result ≡ false → now.world.turn ≡ None };

    /// Hands over what was written down so far, and goes on with an empty trace, to which this one gives its room: the run is
    /// what it would have been. Whoever writes the trace out event by event keeps a long run from filling the memory by this.
    /// The claims on a checked program hold as before, of the run that also wrote down what was handed over.
    fn hand_over(&mut self, spare: Trace) -> Trace
        requires { spare ≡ [] }
        ensures given { let before = seen self.old in result ≡ before.world.trace }
        ensures cleared { seen self.new ≡ cleared (seen self.old) }
        ensures checked { IsChecked Self.Natives.gives (seen self.old)
            → IsChecked Self.Natives.gives (seen self.new) };

    /// What was written down so far, or since [`ObjectMachine::hand_over`].
    fn trace(&self) -> &[Entry]
        ensures { let now = seen self.now in result.now ≡ now.world.trace };
}
