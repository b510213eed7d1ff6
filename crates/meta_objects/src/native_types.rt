//! The types of what natives take, read, emit and set.

ghost use Rattle.std.specs.Prelude.{◌≡◌, IfOk, Any};
ghost use Rattle.name_indexes.specs.LookUps.{Tells};
ghost use Rattle.class_outlines.specs.Natives.{IsPointer, TakesReference, ActsOnReference, AffectsReference, TouchesReference, HasReferenceNative};
ghost use Rattle.class_outlines.specs.Offences.{TellsBreach, TellsOffence, TellsOffenceIn};
ghost use Rattle.class_outlines.specs.DeclaredSites.{IsReferenceIn};
ghost use Rattle.class_outlines.specs.declared.fault.MetaFault.TheVariants as fault;
ghost use Rattle.class_outlines.specs.declared.reason.Reason.TheVariants as reason;

use crate::site_references::reference_in;
use basic_types::{Name, QType, Sig};
use class_outlines::{
    Breach, ClassTable, Declaration, Member, Offence, Reason, Unfit, names_before_parameter,
    names_before_work, names_of_sig,
};
use std::alloc::AllocError;
use syntax_trees::{Class, EffectNames, Parameter, Program, Slot, SlotWork};

/// The first native that takes, reads, emits or sets a reference. The error is that memory was refused.
pub fn touched_reference(
    program: &Program,
    outlines: &ClassTable,
) -> Result<Option<Offence>, AllocError>
    ensures { IfOk result (TellsOffence program.now fault.NoType (Any (HasReferenceNative outlines.now) program.now.classes)) }
{
    for (number, class) in program.classes.as_slice().iter().enumerate() {
        if let Some(offence) = touched_in_class(outlines, number, class)? {
            return Ok(Some(offence));
        }
    }
    Ok(None)
}

/// The first of those that the class of this number declares.
fn touched_in_class(
    outlines: &ClassTable,
    number: usize,
    class: &Class,
) -> Result<Option<Offence>, AllocError>
    ensures { IfOk result (TellsOffenceIn number class.now fault.NoType (HasReferenceNative outlines.now class.now)) }
{
    for (place, slot) in class.slots.as_slice().iter().enumerate() {
        if let Some(breach) = touched_by(outlines, &class.name, slot)? {
            let declaration = Declaration::Member(number, Member::Slot(place));
            return Ok(Some(breach.of(declaration)));
        }
    }
    Ok(None)
}

/// The reference that the slot takes, reads, emits or sets, where it is a native of the class of this name.
fn touched_by(
    outlines: &ClassTable,
    class: &Name,
    slot: &Slot,
) -> Result<Option<Breach>, AllocError>
    ensures { IfOk result
        (TellsBreach fault.NoType (TouchesReference outlines.now class.now slot.now.parameters slot.now.work)) }
{
    let parameters = slot.parameters.as_slice();
    match &slot.work {
        SlotWork::Body(_) => Ok(None),
        SlotWork::Native(effects) => match taken_reference(parameters)? {
            Some(breach) => Ok(Some(breach)),
            None => {
                let first = names_before_work(parameters);
                affected_reference(outlines, class, first, effects)
            }
        },
    }
}

/// That the type of this name is a reference where none may stand.
fn reference(name: usize, unfit: Unfit) -> Breach
    ensures { result ≡ record { name = name; reason = reason.NoType unfit } }
{
    Breach {
        name,
        reason: Reason::NoType(unfit),
    }
}

/// The first parameter that is a reference.
fn taken_reference(parameters: &[Parameter]) -> Result<Option<Breach>, AllocError>
    ensures { IfOk result (TellsBreach fault.NoType (TakesReference parameters.now)) }
{
    for (place, parameter) in parameters.iter().enumerate() {
        if parameter.kind.pointer {
            let kind = parameter.kind.copy()?;
            let name = names_before_parameter(parameters, place);
            return Ok(Some(reference(name, Unfit::Taken(kind))));
        }
    }
    Ok(None)
}

/// The first reference among what the native of this class reads, emits or sets. The names of its lists begin with this
/// number.
fn affected_reference(
    outlines: &ClassTable,
    class: &Name,
    first: usize,
    effects: &EffectNames,
) -> Result<Option<Breach>, AllocError>
    ensures { IfOk result (TellsBreach fault.NoType (AffectsReference outlines.now class.now effects.now)) }
{
    let reads = effects.reads.as_slice();
    match named_reference(outlines, class, first, reads)? {
        Some(breach) => Ok(Some(breach)),
        None => {
            let second = first.saturating_add(reads.len());
            acted_reference(outlines, class, second, effects)
        }
    }
}

/// The first reference among what the native of this class emits or sets.
fn acted_reference(
    outlines: &ClassTable,
    class: &Name,
    first: usize,
    effects: &EffectNames,
) -> Result<Option<Breach>, AllocError>
    ensures { IfOk result (TellsBreach fault.NoType (ActsOnReference outlines.now class.now effects.now)) }
{
    let mut names = first;
    match emitted_reference(effects.emits.as_slice(), &mut names)? {
        Some(breach) => Ok(Some(breach)),
        None => named_reference(outlines, class, names, effects.sets.as_slice()),
    }
}

/// The first of these properties of the class that is a reference.
fn named_reference(
    outlines: &ClassTable,
    class: &Name,
    first: usize,
    names: &[Name],
) -> Result<Option<Breach>, AllocError>
    ensures { IfOk result (TellsBreach fault.NoType (Any (IsReferenceIn outlines.now class.now) names.now)) }
{
    for (place, name) in names.iter().enumerate() {
        if let Some(kind) = reference_in(outlines, class, name) {
            let kind = kind.copy()?;
            return Ok(Some(reference(first.saturating_add(place), Unfit::Affected(kind))));
        }
    }
    Ok(None)
}

/// The first of the signals with a reference. So many names stand before them; those of the signals that have none are
/// added.
fn emitted_reference(signals: &[Sig], names: &mut usize) -> Result<Option<Breach>, AllocError>
    ensures { IfOk result (TellsBreach fault.NoType (Any (λ sig. Any IsPointer sig.types) signals.now)) }
{
    for sig in signals {
        if let Some((place, kind)) = first_pointer(sig.types.as_slice()) {
            let kind = kind.copy()?;
            let sig = sig.copy()?;
            let name = names.saturating_add(place).saturating_add(1);
            return Ok(Some(reference(name, Unfit::Emitted(sig, kind))));
        }
        *names = names.saturating_add(names_of_sig(sig));
    }
    Ok(None)
}

/// The first of the types that is a reference, with its place.
fn first_pointer(types: &[QType]) -> Option<(usize, &QType)>
    ensures { Tells (Any IsPointer types.now) result }
{
    for (place, kind) in types.iter().enumerate() {
        if kind.pointer {
            return Some((place, kind));
        }
    }
    None
}
