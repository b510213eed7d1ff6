//! What is reported beside a yes.

ghost use Rattle.std.specs.Prelude.{All, IfOk};
ghost use Rattle.program_flaws.specs.Wires.{IsLineageOf, IsSo};

use crate::source::ReadProgram;
use crate::warned::bodies::OwnSlot;
use crate::warned::connects::Wiring;
use crate::warned::idle_wires::add_idle_wires;
use crate::warned::lineage::Lineage;
use crate::warned::notified_twice::add_notified_twice;
use crate::warned::ranked::Ranked;
use crate::warned::senders::{add_lost_senders, has_deletion};
use crate::warned::telling::Subject;
use crate::warned::warning::Warning;
use meta_model::Meta;
use rank_check::Checked;
use rank_make::{Ranks, Solution, Why, rank, rank_scan};
use std::alloc::{AllocError, Global};

/// A yes to a program.
#[derive(Clone, Copy)]
pub enum Yes<'a> {
    /// It has a certificate; the program with its ranks.
    Certified(Ranked<'a>),
    /// The certificate that is given with this program is valid.
    Valid(&'a Checked),
    /// The certificate that is given with it is valid, and this program ran.
    Ran(&'a Meta),
}

/// What is reported beside a yes to the program of this text: a line for each of the first warnings, and where it didn't run
/// a line that says how many members it has, and which chain of them is the longest. `None` where there is nothing to
/// tell. The text is read for the places of warnings alone.
pub fn told_beside(alloc: Global, text: &[u8], yes: Yes<'_>) -> Result<Option<String>, AllocError> {
    let mut told = String::new(alloc);
    match yes {
        Yes::Certified(ranked) => push_ranked(&mut told, alloc, text, ranked)?,
        Yes::Valid(checked) => push_checked(&mut told, alloc, text, checked)?,
        Yes::Ran(meta) => push_run(&mut told, alloc, text, meta)?,
    }
    if told.is_empty() {
        Ok(None)
    } else {
        Ok(Some(told))
    }
}

/// Adds what is reported of a program with its ranks.
fn push_ranked(
    told: &mut String,
    alloc: Global,
    text: &[u8],
    ranked: Ranked<'_>,
) -> Result<(), AllocError> {
    push_warnings(told, alloc, text, ranked.meta, Some(ranked))?;
    ranked.push_depth(told, alloc)
}

/// Adds what is reported of a program with a valid certificate, whose ranks and sets may be greater than the program's own.
fn push_checked(
    told: &mut String,
    alloc: Global,
    text: &[u8],
    checked: &Checked,
) -> Result<(), AllocError> {
    match solution_of(alloc, checked)? {
        Some(solution) => {
            let ranked = Ranked {
                meta: checked.meta(),
                scan: checked.scan(),
                solution: &solution,
            };
            push_ranked(told, alloc, text, ranked)
        }
        None => Ok(()),
    }
}

/// Adds what is reported of the program of this text after a run. Its ranks tell something only where a slot destroys an
/// object at once.
fn push_run(told: &mut String, alloc: Global, text: &[u8], meta: &Meta) -> Result<(), AllocError> {
    if !has_deletion(meta) {
        return push_warnings(told, alloc, text, meta, None);
    }
    match ranks_of(alloc, meta)? {
        Some(ranks) => {
            let ranked = Ranked::of(meta, &ranks);
            push_warnings(told, alloc, text, meta, Some(ranked))
        }
        None => Ok(()),
    }
}

/// The ranks of the program, if no edges lead back to a node.
fn ranks_of(alloc: Global, meta: &Meta) -> Result<Option<Ranks>, AllocError> {
    match rank(alloc, meta) {
        Ok(ranks) => Ok(Some(ranks)),
        Err(Why::Memory) => Err(AllocError),
        Err(_) => Ok(None),
    }
}

/// The ranks of the program that was checked, which was scanned for it, if no edges lead back to a node.
fn solution_of(alloc: Global, checked: &Checked) -> Result<Option<Solution>, AllocError> {
    match rank_scan(alloc, checked.meta(), checked.scan()) {
        Ok(solution) => Ok(Some(solution)),
        Err(Why::Memory) => Err(AllocError),
        Err(_) => Ok(None),
    }
}

/// Adds the warnings of the program of this text. The text is read only where there are some.
fn push_warnings(
    told: &mut String,
    alloc: Global,
    text: &[u8],
    meta: &Meta,
    ranked: Option<Ranked<'_>>,
) -> Result<(), AllocError> {
    let found = warnings(alloc, meta, ranked)?;
    if found.is_empty() {
        return Ok(());
    }
    let Some(read) = ReadProgram::of(alloc, text)? else {
        return Ok(());
    };
    let subject = Subject {
        alloc,
        meta,
        read: &read,
        ranked,
    };
    subject.push_warnings(told, found.as_slice())
}

/// What in a program that has a certificate is worth a warning, in the order of the types and of the text: with what is known
/// of its ranks also which signals may lose their sender. Takes time linear in the declarations and bodies, and for each wire
/// and each `connect` in the wires.
pub fn warnings(
    alloc: Global,
    meta: &Meta,
    ranked: Option<Ranked<'_>>,
) -> Result<Vec<Warning>, AllocError>
    ensures { IfOk result (λ found. All (IsSo meta.now) found.items) }
{
    let mut found = Vec::new(alloc);
    if declares_nothing(meta) {
        found.push(Warning::Empty)?;
        return Ok(found);
    }
    let lineage = Lineage::of(alloc, meta)?;
    add_idle_wires(meta, &lineage, &mut found)?;
    add_of_slots(alloc, meta, &lineage, &mut found)?;
    if let Some(ranked) = ranked {
        add_lost_senders(alloc, meta, ranked, &mut found)?;
    }
    Ok(found)
}

/// Whether there is `QObject` alone, and nothing is declared of it.
fn declares_nothing(meta: &Meta) -> bool {
    meta.classes().len() <= 1
        && meta.wires().is_empty()
        && meta.owned().is_empty()
        && meta.sites().is_empty()
}

/// Adds the warnings of the slots' bodies.
fn add_of_slots(
    alloc: Global,
    meta: &Meta,
    lineage: &Lineage,
    found: &mut Vec<Warning>,
) -> Result<(), AllocError>
    requires lineage { IsLineageOf meta.now lineage.now }
    requires so { All (IsSo meta.now) found.old.items }
    ensures { IfOk result (λ _. All (IsSo meta.now) found.new.items) }
{
    // `QObject`, whose slot no text has, comes first.
    for class in 1..meta.classes().len() {
        for method in meta.method_offset(class)..meta.method_count(class) {
            if let Some(slot) = OwnSlot::of(meta, class, method) {
                let statements = slot.statements(alloc)?;
                let wiring = Wiring {
                    meta,
                    lineage,
                    slot,
                };
                wiring.add_unwired(statements.as_slice(), found)?;
                add_notified_twice(alloc, meta, slot, statements.as_slice(), found)?;
            }
        }
    }
    Ok(())
}
