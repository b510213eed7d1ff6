//! How an object is created.

ghost use Rattle.std.specs.Prelude.{◌≡◌, IfOk, IfErr};
ghost use Rattle.object_tree.specs.Creating.{MayCreate, IsNotCreated, fresh, initial_values};
ghost use Rattle.object_tree.specs.code.Kept.{Kept};

use crate::children::Children;
use crate::fault::CreateFault;
use crate::life::Life;
use crate::object::Object;
use crate::objects::Objects;
use crate::typing::begin_well;
use crate::values::Values;
use basic_types::{LoopId, Name};
use meta_model::{Meta, MetaObject, NameIndex};
use std::alloc::{AllocError, Global};

/// How many objects may be created.
pub const MOST_OBJECTS: usize = 100_000;

/// The number and the meta-object of the class of a new object, or why the object may not be created.
pub fn may_create<'a>(
    meta: &'a Meta,
    names: &NameIndex,
    objects: &Objects,
    name: &Name,
    class: &Name,
) -> Result<(usize, &'a MetaObject), CreateFault>
    requires { Kept names.now objects.now }
    ensures may { IfOk result (λ k.
        MayCreate meta.now objects.now name.now class.now k.0 k.1.now) }
    ensures not { IfErr result (IsNotCreated meta.now objects.now name.now class.now) }
{
    if names.find(name).is_some() {
        return Err(CreateFault::NameUsed);
    }
    let Some(number) = meta.class(class) else {
        return Err(CreateFault::NoClass);
    };
    if objects.len() >= MOST_OBJECTS {
        return Err(CreateFault::TooMany);
    }
    let Some(kind) = meta.object(number) else {
        return Err(CreateFault::NoClass);
    };
    if begin_well(meta, objects, number, kind.properties.as_slice()) {
        Ok((number, kind))
    } else {
        Err(CreateFault::BadType)
    }
}

/// A new object with its class's initial values.
pub fn new_object(
    alloc: Global,
    name: &Name,
    number: usize,
    home: LoopId,
    kind: &MetaObject,
) -> Result<Object, AllocError>
    ensures { IfOk result (λ x. x ≡ fresh name.now number home (initial_values kind.now)) }
{
    let values = Values::initial(alloc, kind.properties.as_slice())?;
    let life = Life {
        class: number,
        home,
        parent: None,
        blocked: false,
        scheduled: false,
        values,
    };
    Ok(Object {
        name: name.copy()?,
        children: Children::new(alloc),
        life: Some(life),
    })
}
