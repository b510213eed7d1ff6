//! The effects of natives, whose names are replaced by numbers.

ghost use Rattle.std.specs.Prelude.{◌≡◌};
ghost use Rattle.name_indexes.specs.LookUps.{LooksUp};
ghost use Rattle.name_resolution.specs.code.Natives.{AreEffects, HasPropertyIn, HasSignalIn};
ghost use Rattle.name_resolution.specs.code.Resolving.{Resolves, ResolvesEach};

use crate::missing::{no_end, no_property};
use crate::resolve_wire::signal_end;
use basic_types::{Name, Sig};
use class_outlines::{ClassTable, End, PartFault, names_of_sig, property_in};
use meta_model::{MetaEffects, OBJECT_NAME_CHANGED};
use sqlite_items::Items;
use std::alloc::Global;
use syntax_trees::EffectNames;

/// The effects of a native of the class of this name, in the order declared; `NoMember` where the class lacks a property
/// that the native reads or sets, or a signal that it emits, or where the runtime emits that signal. So many of the native's
/// names were met, to which those of the effects are added.
pub fn resolve_effects(
    alloc: Global,
    outlines: &ClassTable,
    class: &Name,
    effects: &EffectNames,
    met: &mut usize,
) -> Result<MetaEffects, PartFault>
    ensures { Resolves (AreEffects outlines.now class.now effects.now) result }
{
    let reads = resolve_named(alloc, outlines, class, effects.reads.as_slice(), met)?;
    let emits = resolve_emitted(alloc, outlines, class, effects.emits.as_slice(), met)?;
    let sets = resolve_named(alloc, outlines, class, effects.sets.as_slice(), met)?;
    Ok(MetaEffects { reads, emits, sets })
}

/// The numbers of the class's properties of these names.
fn resolve_named(
    alloc: Global,
    outlines: &ClassTable,
    class: &Name,
    names: &[Name],
    met: &mut usize,
) -> Result<Items<usize>, PartFault>
    ensures { ResolvesEach (HasPropertyIn outlines.now class.now) names.now result }
{
    let mut numbers = Items::new(alloc);
    for name in names {
        let Some(found) = property_in(outlines, class, name) else {
            return Err(no_property(outlines, class, *met));
        };
        numbers.push(found.place)?;
        *met = met.saturating_add(1);
    }
    Ok(numbers)
}

/// The numbers of the class's signals of these signatures.
fn resolve_emitted(
    alloc: Global,
    outlines: &ClassTable,
    class: &Name,
    signals: &[Sig],
    met: &mut usize,
) -> Result<Items<usize>, PartFault>
    ensures { ResolvesEach (HasSignalIn outlines.now class.now) signals.now result }
{
    let mut numbers = Items::new(alloc);
    for sig in signals {
        let Some(signal) = emitted(outlines, class, sig) else {
            return Err(no_end(outlines, *met, class, End::Effect, sig));
        };
        numbers.push(signal)?;
        *met = met.saturating_add(names_of_sig(sig));
    }
    Ok(numbers)
}

/// The number of the signal of this signature, of the class of this name, which a native of the class may emit; `None` where
/// the class has no such signal, or the runtime emits it.
pub fn emitted(outlines: &ClassTable, class: &Name, sig: &Sig) -> Option<usize>
    ensures { LooksUp (HasSignalIn outlines.now class.now sig.now) result }
{
    let Some((_, signal)) = signal_end(outlines, class, sig) else {
        return None;
    };
    if OBJECT_NAME_CHANGED < signal {
        Some(signal)
    } else {
        None
    }
}
