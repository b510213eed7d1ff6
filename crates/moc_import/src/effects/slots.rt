//! The slots that lines of effects name.

use crate::classes::{
    Catalogue, ImportedMethod, ImportedParameter, LeftOut, MocMethod, Placed, parameters_of,
};
use crate::effects::fault::EffectFault;
use crate::effects::line::{EffectLine, EffectVerb, NumberedLine, split_path};
use crate::effects::lookup::Lookup;
use crate::effects::near::NearestName;
use crate::effects::signatures::signature;
use std::alloc::{AllocError, Global};

/// The slots of the lines, each with its class's number, where that is imported.
pub fn added_slots<'f>(
    alloc: Global,
    catalogue: &Catalogue<'_>,
    lines: &'f [NumberedLine<'_>],
) -> Result<Vec<(usize, &'f MocMethod)>, AllocError> {
    let mut slots = Vec::new(alloc);
    for line in lines {
        let Ok(read) = &line.read else {
            continue;
        };
        if let Some(class) = catalogue.number(read.class) {
            slots.push((class, &read.slot))?;
        }
    }
    Ok(slots)
}

/// The names of the properties that the lines name.
pub fn named_properties<'f>(
    alloc: Global,
    lines: &'f [NumberedLine<'_>],
) -> Result<Vec<&'f str>, AllocError> {
    let mut names = Vec::new(alloc);
    for line in lines {
        let Ok(read) = &line.read else {
            continue;
        };
        for effect in read.effects.as_slice() {
            let path = match effect.verb {
                EffectVerb::Emits => continue,
                EffectVerb::Calls => split_path(effect.path).0,
                EffectVerb::Sets | EffectVerb::Deletes => effect.path,
            };
            for name in path.split('.') {
                names.push(name)?;
            }
        }
    }
    Ok(names)
}

/// The slot of a line; `None` where its class is read and not imported.
pub fn slot_of<'i, 'f>(
    alloc: Global,
    lookup: Lookup<'i, 'f>,
    line: &EffectLine<'_>,
) -> Result<Option<Placed<'i, 'f>>, EffectFault> {
    let catalogue = lookup.catalogue();
    let Some(class) = catalogue.number(line.class) else {
        if catalogue.is_read(line.class) {
            return Ok(None);
        }
        return Err(no_class(alloc, catalogue, line.class)?);
    };
    let name = line.slot.name.as_str();
    match parameters_of(alloc, catalogue, class, &line.slot)? {
        Ok(parameters) => {
            let slot = own_slot(alloc, lookup, class, name, parameters.as_slice())?;
            Ok(Some(slot))
        }
        Err(why) => Err(no_such_slot(alloc, name, why)),
    }
}

/// That there is no such class, and which one may have been meant.
fn no_class(
    alloc: Global,
    catalogue: &Catalogue<'_>,
    written: &str,
) -> Result<EffectFault, AllocError> {
    let mut nearest = NearestName::to(written);
    for name in catalogue.class_names() {
        nearest.look_at(alloc, name.as_str())?;
    }
    let [before, meant, behind] = nearest.question();
    Ok(EffectFault::of(
        alloc,
        &["there is no class `", written, "`", before, meant, behind],
    ))
}

/// That the slot can't be declared, and why.
fn no_such_slot(alloc: Global, name: &str, why: LeftOut<'_>) -> EffectFault {
    let [why, kind] = why.parts();
    EffectFault::of(alloc, &["`", name, "` can't be a slot: ", why, kind])
}

/// The slot of this name that the class has itself, with parameters of these types.
fn own_slot<'i, 'f>(
    alloc: Global,
    lookup: Lookup<'i, 'f>,
    class: usize,
    name: &str,
    parameters: &[ImportedParameter<'_>],
) -> Result<Placed<'i, 'f>, EffectFault> {
    // It was added where nothing was in its way; what `QObject` has are no methods of the classes here.
    let Some(slot) = lookup.import.find_method(class, name, parameters.len()) else {
        return Err(no_such_slot(alloc, name, LeftOut::Inherited));
    };
    let is_own = slot.class == class && !slot.method.is_signal();
    if is_own && has_kinds(slot.method, parameters) {
        return Ok(slot);
    }
    Err(other_slot(alloc, lookup.catalogue(), class, slot)?)
}

/// That the slot of the name is another one than that of a line for this class.
fn other_slot(
    alloc: Global,
    catalogue: &Catalogue<'_>,
    class: usize,
    slot: Placed<'_, '_>,
) -> Result<EffectFault, AllocError> {
    let holder = catalogue.name(Some(slot.class));
    let there = signature(alloc, catalogue, slot.method)?;
    let there = there.as_str();
    Ok(if slot.method.is_signal() {
        EffectFault::of(
            alloc,
            &[
                "`",
                there,
                "` is a signal: a slot of another name may emit it",
            ],
        )
    } else if slot.class != class {
        EffectFault::of(
            alloc,
            &[
                "`",
                there,
                "` is a slot of the base `",
                holder,
                "`: write `",
                holder,
                ".",
                there,
                "`",
            ],
        )
    } else {
        EffectFault::of(
            alloc,
            &[
                "`",
                holder,
                "` has no slot of these types: it has `",
                there,
                "`",
            ],
        )
    })
}

/// Whether the method's parameters have the types of these.
fn has_kinds(method: &ImportedMethod<'_>, parameters: &[ImportedParameter<'_>]) -> bool {
    let mut left = parameters;
    for own in method.parameters.as_slice() {
        match left {
            [other, rest @ ..] if own.mapped.kind == other.mapped.kind => left = rest,
            _ => return false,
        }
    }
    left.is_empty()
}
