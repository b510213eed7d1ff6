//! Effects as statements.

use crate::classes::{Catalogue, ImportedMethod, ImportedParameter, Placed};
use crate::effects::body::{GivenStatement, GivenValue, only_value, values};
use crate::effects::fault::EffectFault;
use crate::effects::line::{EffectVerb, SlotEffect, split_path};
use crate::effects::lookup::{Lookup, SoughtMember, SoughtSort};
use std::alloc::{AllocError, Global};

const OTHER_OBJECT: &str = "of another object: a slot emits signals of its own object alone";

/// The statement that an effect is in the body of this slot.
pub fn statement<'e>(
    alloc: Global,
    lookup: Lookup<'_, '_>,
    slot: Placed<'_, '_>,
    effect: &'e SlotEffect<'_>,
) -> Result<GivenStatement<'e>, EffectFault> {
    let path: &'e str = effect.path;
    let parameters = slot.method.parameters.as_slice();
    let values = match effect.verb {
        EffectVerb::Emits | EffectVerb::Calls => {
            let method = method(alloc, lookup, slot.class, effect)?;
            passed(alloc, lookup.catalogue(), method, parameters)?
        }
        EffectVerb::Sets => {
            let (front, name) = split_path(path);
            let class = lookup.object(alloc, slot.class, front)?;
            let kind = lookup.property(alloc, class, name)?;
            only_value(alloc, lookup.catalogue(), kind, parameters)?
        }
        EffectVerb::Deletes => {
            lookup.object(alloc, slot.class, path)?;
            Vec::new(alloc)
        }
    };
    Ok(GivenStatement {
        verb: effect.verb,
        path,
        values,
    })
}

/// The signal or slot that an effect names, from an object of the class; `None` for the slot that every object has.
fn method<'i, 'f>(
    alloc: Global,
    lookup: Lookup<'i, 'f>,
    class: usize,
    effect: &SlotEffect<'_>,
) -> Result<Option<&'i ImportedMethod<'f>>, EffectFault> {
    let path = effect.path;
    let (front, name) = split_path(path);
    let types = match &effect.types {
        Some(types) => Some(types.as_slice()),
        None => None,
    };
    let sought = if matches!(effect.verb, EffectVerb::Emits) {
        if path != name {
            return Err(EffectFault::of_name(alloc, path, OTHER_OBJECT));
        }
        SoughtMember {
            class: Some(class),
            sort: SoughtSort::Signal,
            name,
        }
    } else {
        SoughtMember {
            class: lookup.object(alloc, class, front)?,
            sort: SoughtSort::Slot,
            name,
        }
    };
    lookup.method(alloc, sought, types)
}

/// The values that are passed to the signal or slot.
fn passed(
    alloc: Global,
    catalogue: &Catalogue<'_>,
    method: Option<&ImportedMethod<'_>>,
    parameters: &[ImportedParameter<'_>],
) -> Result<Vec<GivenValue>, AllocError> {
    match method {
        Some(method) => values(alloc, catalogue, method.parameters.as_slice(), parameters),
        None => Ok(Vec::new(alloc)),
    }
}
