//! Natives for which the program `gammonfig` has no closure, or one with other effects, in words.

ghost use Rattle.std.specs.Prelude.{◌≤◌, length, IfOk, IfSome};

use crate::declarations::words::ReportedOffence;
use crate::source::{ProgramSource, ReadProgram};
use class_outlines::{LoadFault, names_before_work, names_of_sig};
use diagnostics::Flaw;
use effect_scan::{Member, Node};
use meta_objects::load;
use native_slots::{Difference, Misfit, NativePlace};
use std::alloc::{AllocError, Global};
use syntax_trees::{Slot, SlotWork};

/// The native for which a loaded program is refused: it has no closure (17), or its closure has other effects (18). The place
/// is that of its name, or of the first one in the list that differs. `None` where the text is no program that loads, or has
/// no such native.
pub fn native_flaw(alloc: Global, text: &[u8], misfit: Misfit) -> Result<Option<Flaw>, AllocError>
    ensures { IfOk result (λ flaw. IfSome flaw (λ f. f.at ≤ length text.now)) }
{
    let Some(read) = ReadProgram::of(alloc, text)? else {
        return Ok(None);
    };
    match misfit_flaw(alloc, &read, misfit)? {
        Some(flaw) => Ok(Some(flaw.within(0, text.len()))),
        None => Ok(None),
    }
}

/// The same of what is read.
fn misfit_flaw(
    alloc: Global,
    read: &ReadProgram,
    misfit: Misfit,
) -> Result<Option<Flaw>, AllocError> {
    match load(alloc, &read.program) {
        Ok(meta) => loaded_flaw(read, read.source(alloc, &meta), misfit),
        Err(LoadFault::Offence(_)) => Ok(None),
        Err(LoadFault::Memory) => Err(AllocError),
    }
}

/// The same, where the program loads so.
fn loaded_flaw(
    read: &ReadProgram,
    source: ProgramSource<'_>,
    misfit: Misfit,
) -> Result<Option<Flaw>, AllocError> {
    let NativePlace { class, method } = misfit.place();
    let member = Member::Method(method);
    let native = Node { class, member };
    let (Some(declaration), Some(slot)) = (source.declaration(native), source.slot(native)) else {
        return Ok(None);
    };
    let wrong = wrong_in(slot, misfit);
    let Some(told) = ReportedOffence::of(source.alloc, read, declaration, wrong.name) else {
        return Ok(None);
    };
    let advice = String::from_str(source.alloc, wrong.advice)?;
    Ok(Some(told.flaw(wrong.words, Some(advice))?))
}

/// In what a native is wrong.
#[derive(Clone, Copy)]
struct Wrong {
    /// Which of the declaration's names it is about.
    name: usize,
    words: &'static str,
    advice: &'static str,
}

/// In what this native is wrong. The program has one closure, for `twice(int)` of a class `Doubler`.
fn wrong_in(slot: &Slot, misfit: Misfit) -> Wrong {
    match misfit {
        Misfit::NoNative(_) => Wrong {
            name: 0,
            words: "the native has no code in this tool",
            advice: "this tool has code for one native, `twice(int)` of a class `Doubler`",
        },
        Misfit::EffectsDiffer(_, list) => Wrong {
            name: first_name(slot, list),
            words: what_is_done(list),
            advice: "write `native twice(int v) emits done(int) sets out;`, where `out` is an `int`",
        },
    }
}

/// Which of the native's names is the first in this list; its own where the list has none.
fn first_name(slot: &Slot, list: Difference) -> usize {
    let SlotWork::Native(effects) = &slot.work else {
        return 0;
    };
    let reads = names_before_work(slot.parameters.as_slice());
    let emits = reads.saturating_add(effects.reads.len());
    match list {
        Difference::Reads if !effects.reads.is_empty() => reads,
        Difference::Emits if !effects.emits.is_empty() => emits,
        Difference::Sets if !effects.sets.is_empty() => {
            let mut before = emits;
            for sig in effects.emits.as_slice() {
                before = before.saturating_add(names_of_sig(sig));
            }
            before
        }
        _ => 0,
    }
}

/// What the closure has in this list.
fn what_is_done(list: Difference) -> &'static str {
    match list {
        Difference::Parameters => "the native's code takes an `int`, and nothing else",
        Difference::Reads => "the native's code reads no property",
        Difference::Emits => "the native's code emits `done(int)` and nothing else",
        Difference::Sets => {
            "the native's code sets `out`, a property of the type `int`, and nothing else"
        }
    }
}
