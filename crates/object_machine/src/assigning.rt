//! `set`: what is written.

ghost use Rattle.std.specs.Prelude.{[], Ok, IfOk, IfErr, MatchOption};
ghost use Rattle.script_lang.specs.declared.event.Event.TheVariants.{Set};
ghost use Rattle.prop_bindings.specs.Fits.{FitsAt};
ghost use Rattle.machine_state.specs.Worlds.{at};
ghost use Rattle.machine_rules.specs.Judgement.{NothingIs, numbered};
ghost use Rattle.object_machine.specs.code.Judgement.{IsNotAccepted, IsPropertyOf};
ghost use Rattle.object_machine.specs.code.Accepted.{WritesTo};
ghost use Rattle.object_machine.specs.Events.{judged};

use crate::named::find_living;
use crate::not_accepted::NotAccepted;
use crate::values::read_input;
use basic_types::{Name, ObjectId};
use machine_state::World;
use meta_model::{Meta, MetaProperty};
use prop_bindings::{Assignment, Place};
use run_context::RunContext;
use script_lang::Input;
use trace_entries::Refusal;

/// What the event writes, or why it isn't accepted.
pub fn judge_write(
    context: &RunContext,
    world: &World,
    name: &Name,
    property: &Name,
    input: &Input,
) -> Result<Assignment, NotAccepted>
    ensures accepted { IfOk result (λ a. WritesTo context.now.meta world.now
        a.place a.value (Set name.now property.now input.now)) }
    ensures fits { IfOk result
        (λ a. FitsAt context.now.meta world.now.store.tree a.place a.value) }
    ensures refused { IfErr result (IsNotAccepted
        (judged context.now.meta (at world.now [])
        (Set name.now property.now input.now))) }
{
    let (object, life) = find_living(world, name)?;
    let Some((property, declared)) = property_of(&context.meta, life.class, property) else {
        return Err(NotAccepted::Refused(Refusal::NoMember));
    };
    let value = read_input(world, input)?;
    if world
        .store
        .tree
        .has_type(&context.meta, &value, declared.kind)
    {
        let place = Place {
            object: ObjectId::new(object),
            property,
        };
        Ok(Assignment { place, value })
    } else {
        Err(NotAccepted::Refused(Refusal::BadArgs))
    }
}

/// The class's property of this name.
fn property_of<'m>(meta: &'m Meta, class: usize, name: &Name) -> Option<(usize, &'m MetaProperty)>
    ensures { MatchOption result (NothingIs (IsPropertyOf meta.now class name.now))
        (λ f. IsPropertyOf meta.now class name.now (numbered f.0 f.1.now)) }
{
    let Some(number) = meta.property(class, name) else {
        return None;
    };
    let found = meta.object(class)?;
    let declared = found.property(number)?;
    Some((number, declared))
}
