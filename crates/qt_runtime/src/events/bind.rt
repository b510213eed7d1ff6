//! `bind`: a property is bound to others.

ghost use Rattle.std.specs.Prelude.{◌≡◌, ℕ, ◌<◌, List, None};
ghost use Rattle.script_lang.specs.declared.event.Event.TheVariants.{Bind};
ghost use Rattle.object_machine.specs.code.Accepted.{AsksToBind};
ghost use Rattle.qt_runtime.specs.code.Taking.{MayTake, TookBy, binding_reason};

use crate::quiet::{accept_bind, refuse, reject};
use basic_types::Name;
use machine_state::World;
use native_slots::Answering;
use object_machine::{Asked, judge_bind};
use prop_bindings::BindFault;
use rule_interpreter::{Active, Interpreter};
use trace_entries::{Answer, Fault, Refusal};

/// Binds a property, and runs what is notified.
pub fn bind<N: Answering>(
    interpreter: &Interpreter<N>,
    world: &mut World,
    site: &Name,
    target: &Name,
    sources: &[Name],
) -> Result<Answer, Fault>
    requires may { MayTake N.takes N.gives interpreter.now world.old }
    requires left { 0 < world.old.left }
    ensures { TookBy N.gives interpreter.now (Bind site.now target.now sources.now)
        world.old world.new result }
{
    match judge_bind(&interpreter.context, world, site, target, sources) {
        Err(reason) => refuse(world, reason),
        Ok(asked) => install(interpreter, world, &asked),
    }
}

/// Installs the binding, and runs what is notified; or refuses the event.
fn install<N: Answering>(
    interpreter: &Interpreter<N>,
    world: &mut World,
    asked: &Asked,
) -> Result<Answer, Fault>
    requires may { MayTake N.takes N.gives interpreter.now world.old }
    requires left { 0 < world.old.left }
    ensures { (site target : List ℕ) (sources : List (List ℕ)) →
        AsksToBind interpreter.now.context.meta world.old site target sources
        asked.now.site asked.now.target asked.now.sources →
        TookBy N.gives interpreter.now (Bind site target sources) world.old world.new result }
{
    let sources = asked.sources.as_slice();
    match accept_bind(
        world,
        &interpreter.context.meta,
        asked.site,
        asked.target,
        sources,
    ) {
        Ok(changed) => {
            interpreter.run_update(world, &Active::nothing(), changed.as_slice())?;
            Ok(Answer::Done)
        }
        Err(fault) => {
            let refusal = reason(fault)?;
            reject(world, refusal)
        }
    }
}

/// Why the event is refused, or the run stops, where no binding is installed.
fn reason(fault: BindFault) -> Result<Refusal, Fault>
    ensures { result ≡ binding_reason fault }
{
    match fault {
        BindFault::BadSource => Ok(Refusal::BadSource),
        BindFault::OtherLoop => Ok(Refusal::OtherLoop),
        BindFault::BadType => Err(Fault::BadType),
        BindFault::BindingLoop => Err(Fault::BindingLoop),
        BindFault::Memory => Err(Fault::Memory),
    }
}
