//! The objects that events name.

ghost use Rattle.std.specs.Prelude.{Ok, IfOk, IfErr};
ghost use Rattle.machine_rules.specs.Judgement.{numbered};
ghost use Rattle.object_machine.specs.code.Judgement.{IsNotAccepted, IsLiving};
ghost use Rattle.object_machine.specs.Events.{living, all_living};

use crate::not_accepted::NotAccepted;
use basic_types::{Name, ObjectId};
use machine_state::World;
use object_tree::Life;
use sqlite_items::Items;
use std::alloc::Global;
use trace_entries::Refusal;

/// The number of the living object of this name, and its life.
pub fn find_living<'w>(world: &'w World, name: &Name) -> Result<(usize, &'w Life), NotAccepted>
    ensures found { IfOk result
        (λ f. IsLiving world.now.store.tree name.now (numbered f.0 f.1.now)) }
    ensures refused { IfErr result (IsNotAccepted (living world.now.store.tree name.now)) }
{
    let Some(number) = world.find(name) else {
        return Err(NotAccepted::Refused(Refusal::NoObject));
    };
    match world.store.tree.life(number) {
        Some(life) => Ok((number.number(), life)),
        None => Err(NotAccepted::Refused(Refusal::Dead)),
    }
}

/// The living objects of these names, in their order.
pub fn find_all_living(
    alloc: Global,
    world: &World,
    names: &[Name],
) -> Result<Items<ObjectId>, NotAccepted>
    ensures found { IfOk result
        (λ objects. all_living world.now.store.tree names.now (Ok objects)) }
    ensures refused { IfErr result (IsNotAccepted (all_living world.now.store.tree names.now)) }
{
    let mut objects = Items::new(alloc);
    for name in names {
        let (object, _) = find_living(world, name)?;
        objects.push(ObjectId::new(object))?;
    }
    Ok(objects)
}
