//! Class declarations from what Qt's meta-object compiler writes of C++ headers.
#![tactic(auto)]

mod bodies;
mod classes;
mod effects;
mod summary;
mod writing;

pub use crate::classes::ImportFault;
use crate::classes::{BORDER, Catalogue, Choice, Import, MocFile, files};
pub use crate::effects::LineMistake;
use crate::effects::{GivenBodies, NumberedLine, added_slots, lines, named_properties};
use diagnostics::{Printed, did_you_mean};
use std::alloc::{AllocError, Global};
pub use summary::Summary;

/// A text of effects has at most so many bytes, as many as a program.
const MOST_EFFECTS_BYTES: usize = 1_048_576;

/// A text of effects has at most so many lines with slots, as many as 256 classes of 64 slots have.
const MOST_LINES: usize = 16384;

/// What is asked for.
#[derive(Clone, Copy)]
pub struct ImportOptions<'w> {
    /// These classes and their bases alone, by their names with their scope or without; all classes where none is named.
    pub only: &'w [&'w str],
    /// Of properties those alone that notify, that a slot writes, or that effects name.
    pub is_lean: bool,
    /// Whether the last text has effects of slots.
    pub has_effects: bool,
}

/// What comes of it.
#[derive(Drop)]
pub enum ImportOutcome {
    Imported(Imported),
    /// What is wrong with the effects, line by line.
    Mistaken(Vec<LineMistake>),
}

/// What is imported.
#[derive(Drop)]
pub struct Imported {
    /// The class declarations.
    pub program: String,
    /// How much was imported, and how much was left out.
    pub summary: Summary,
}

/// Class declarations from what moc writes: texts of JSON, parted by lines `%%`, and behind them one of effects, if that is
/// asked for. Errors: a text isn't what moc writes (`BadJson`), or they have too many classes (`TooManyClasses`); there is no
/// text of effects (`NoEffects`), or it is too long (`LongEffects`, `TooManyLines`); a class is asked for that isn't there
/// (`NoClass`); `Memory`.
pub fn import(
    alloc: Global,
    input: &str,
    wanted: ImportOptions<'_>,
) -> Result<ImportOutcome, ImportFault> {
    let (json, effects) = match input.rsplit_once(BORDER) {
        Some(both) if wanted.has_effects => both,
        None if wanted.has_effects => return Err(ImportFault::NoEffects),
        _ => (input, ""),
    };
    if effects.len() > MOST_EFFECTS_BYTES {
        return Err(ImportFault::LongEffects);
    }
    let files = files(alloc, json)?;
    let lines = lines(alloc, effects)?;
    if lines.len() > MOST_LINES {
        return Err(ImportFault::TooManyLines);
    }
    declarations(alloc, files.as_slice(), lines.as_slice(), wanted)
}

/// Class declarations from what is read.
fn declarations<'f>(
    alloc: Global,
    files: &'f [MocFile],
    lines: &'f [NumberedLine<'_>],
    wanted: ImportOptions<'_>,
) -> Result<ImportOutcome, ImportFault> {
    let catalogue = Catalogue::of(alloc, files, wanted.only)?;
    for name in wanted.only {
        if catalogue.number(name).is_none() {
            return Err(unknown_class(alloc, files, &catalogue, name)?);
        }
    }
    let choice = choice_of(alloc, &catalogue, lines, wanted.is_lean)?;
    let import = Import::of(alloc, catalogue, &choice)?;
    outcome(alloc, &import, lines)
}

/// That no class of this name is imported.
fn unknown_class(
    alloc: Global,
    files: &[MocFile],
    catalogue: &Catalogue<'_>,
    name: &str,
) -> Result<ImportFault, AllocError> {
    let shown = Printed(name.as_bytes());
    if catalogue.is_read(name) {
        let sentence = format!(in alloc;
            "the language can't have the class `{shown}`: without `--only`, a comment says why"
        )?;
        return Ok(ImportFault::NoClass(sentence));
    }
    let mut sentence = format!(in alloc; "`moc` wrote of no class `{shown}` with `Q_OBJECT`")?;
    let names = object_names(alloc, files)?;
    if let Some(advice) = did_you_mean(alloc, name.as_bytes(), names.as_slice())? {
        write!(sentence, ": {advice}")?;
    }
    Ok(ImportFault::NoClass(sentence))
}

/// The names of the objects' classes of the files.
fn object_names<'f>(alloc: Global, files: &'f [MocFile]) -> Result<Vec<&'f [u8]>, AllocError> {
    let mut names = Vec::new(alloc);
    for file in files {
        for class in file.classes.as_slice() {
            if class.object {
                names.push(class.class_name.as_bytes())?;
            }
        }
    }
    Ok(names)
}

/// Which members are wanted.
fn choice_of<'f>(
    alloc: Global,
    catalogue: &Catalogue<'_>,
    lines: &'f [NumberedLine<'_>],
    is_lean: bool,
) -> Result<Choice<'f>, AllocError> {
    let kept = named_properties(alloc, lines)?;
    let added = added_slots(alloc, catalogue, lines)?;
    Ok(Choice {
        is_lean,
        kept,
        added,
    })
}

/// What comes of what is imported.
fn outcome(
    alloc: Global,
    import: &Import<'_>,
    lines: &[NumberedLine<'_>],
) -> Result<ImportOutcome, ImportFault> {
    let effects = GivenBodies::of(alloc, import, lines)?;
    if !effects.is_whole() {
        return Ok(ImportOutcome::Mistaken(effects.into_mistakes()));
    }
    let program = writing::program(alloc, import, &effects)?;
    let summary = Summary::of(import, &effects);
    Ok(ImportOutcome::Imported(Imported { program, summary }))
}
