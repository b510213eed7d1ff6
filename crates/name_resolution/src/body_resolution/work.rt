//! What slots and natives do, the names in it resolved.

ghost use Rattle.std.specs.Prelude.{◌≡◌};
ghost use Rattle.name_resolution.specs.code.Bodies.{AreStatements, IsSlotWork, scope_of};
ghost use Rattle.name_resolution.specs.code.Resolving.{Resolves, ResolvesClassWorks, ResolvesWorks};

use crate::body_resolution::scope::Scope;
use crate::resolve_native::resolve_effects;
use class_outlines::{ClassTable, Declaration, LoadFault, Member, PartFault, names_before_work};
use meta_model::{MetaEffects, SlotBody};
use sqlite_items::Items;
use std::alloc::Global;
use syntax_trees::{Body, Class, Program, Slot, SlotWork};

/// What a slot or native does, the names in it resolved.
#[derive(Drop)]
pub enum ResolvedWork {
    /// A slot's body.
    Body(SlotBody),
    /// A native's effects.
    Native(MetaEffects),
}

/// What the slots and natives of each class do; `NoMember` where a name in one of them isn't there.
pub fn resolve_works(
    alloc: Global,
    program: &Program,
    outlines: &ClassTable,
) -> Result<Items<Items<ResolvedWork>>, LoadFault>
    ensures { ResolvesWorks program.now outlines.now result }
{
    let mut works = Items::new(alloc);
    for (number, class) in program.classes.as_slice().iter().enumerate() {
        let of_class = resolve_class_works(alloc, outlines, number, class)?;
        works.push(of_class)?;
    }
    Ok(works)
}

/// What the slots and natives of the class of this number do.
fn resolve_class_works(
    alloc: Global,
    outlines: &ClassTable,
    number: usize,
    class: &Class,
) -> Result<Items<ResolvedWork>, LoadFault>
    ensures { ResolvesClassWorks outlines.now number class.now result }
{
    let mut works = Items::new(alloc);
    for (place, slot) in class.slots.as_slice().iter().enumerate() {
        match resolve_slot_work(alloc, outlines, class, slot) {
            Ok(work) => works.push(work)?,
            Err(fault) => {
                let declaration = Declaration::Member(number, Member::Slot(place));
                return Err(fault.of(declaration));
            }
        }
    }
    Ok(works)
}

/// What the class's slot or native does; `NoMember` where a name in it isn't there.
fn resolve_slot_work(
    alloc: Global,
    outlines: &ClassTable,
    class: &Class,
    slot: &Slot,
) -> Result<ResolvedWork, PartFault>
    ensures { Resolves (IsSlotWork outlines.now class.now slot.now) result }
{
    match &slot.work {
        SlotWork::Body(body) => {
            let body = resolve_body(alloc, outlines, class, slot, body)?;
            Ok(ResolvedWork::Body(body))
        }
        SlotWork::Native(effects) => {
            let mut met = names_before_work(slot.parameters.as_slice());
            let effects = resolve_effects(alloc, outlines, &class.name, effects, &mut met)?;
            Ok(ResolvedWork::Native(effects))
        }
    }
}

/// The body of the class's slot.
fn resolve_body(
    alloc: Global,
    outlines: &ClassTable,
    class: &Class,
    slot: &Slot,
    body: &Body,
) -> Result<SlotBody, PartFault>
    ensures { Resolves (AreStatements (scope_of outlines.now class.now slot.now) body.now) result }
{
    let scope = Scope {
        alloc,
        outlines,
        me: &class.name,
        parameters: slot.parameters.as_slice(),
    };
    let mut met = names_before_work(slot.parameters.as_slice());
    let statements = scope.resolve_block(body.as_slice(), &mut met)?;
    let body = SlotBody::new(alloc, statements)?;
    Ok(body)
}
