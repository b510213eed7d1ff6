//! The word `import`: class declarations from what Qt's meta-object compiler writes of C++ headers.

use crate::fault::ToolFault;
use crate::streams::{short_input, write};
use moc_import::{ImportOptions, ImportOutcome, Imported, LineMistake, Summary, import};
use std::alloc::{AllocError, Global};

/// What the options of `import` ask for.
#[derive(Drop)]
struct ImportWords<'w> {
    only: Vec<&'w str>,
    is_lean: bool,
    is_strict: bool,
    has_effects: bool,
}

impl<'w> ImportWords<'w> {
    /// The options that the words are; `None` where they are none.
    fn of(alloc: Global, words: &[&'w str]) -> Result<Option<ImportWords<'w>>, AllocError> {
        let mut options = ImportWords {
            only: Vec::new(alloc),
            is_lean: false,
            is_strict: false,
            has_effects: false,
        };
        let mut awaits_classes = false;
        for word in words {
            if awaits_classes {
                for class in word.split(',') {
                    options.only.push(class)?;
                }
                awaits_classes = false;
            } else if *word == "--only" {
                awaits_classes = true;
            } else if *word == "--lean" {
                options.is_lean = true;
            } else if *word == "--strict" {
                options.is_strict = true;
            } else if *word == "--effects" {
                options.has_effects = true;
            } else {
                return Ok(None);
            }
        }
        Ok(if awaits_classes { None } else { Some(options) })
    }
}

/// Writes class declarations for what standard input has, and a summary on standard error.
pub fn import_classes(rt: &HostRuntime, words: &[&str]) -> Result<(), ToolFault> {
    let alloc = rt.alloc();
    let Some(options) = ImportWords::of(alloc, words)? else {
        return Err(ToolFault::Usage);
    };
    let bytes = short_input(rt)?;
    let Ok(text) = std::str::from_utf8(bytes.as_slice()) else {
        return Err(ToolFault::NoText);
    };
    let wanted = ImportOptions {
        only: options.only.as_slice(),
        is_lean: options.is_lean,
        has_effects: options.has_effects,
    };
    match import(alloc, text, wanted)? {
        ImportOutcome::Imported(imported) => hand_over(rt, &options, &imported),
        ImportOutcome::Mistaken(mistakes) => {
            for LineMistake { line, text } in mistakes.as_slice() {
                eprintln!(rt; "line {line} of the effects: {text}").ok();
            }
            Err(ToolFault::Mistaken)
        }
    }
}

/// Writes the class declarations, and the summary on standard error.
fn hand_over(
    rt: &HostRuntime,
    options: &ImportWords<'_>,
    imported: &Imported,
) -> Result<(), ToolFault> {
    write(rt, imported.program.as_str())?;
    tell(rt, options, &imported.summary);
    if options.is_strict && !imported.summary.is_whole() {
        return Err(ToolFault::LeftOut);
    }
    Ok(())
}

/// Writes the summary on standard error.
fn tell(rt: &HostRuntime, options: &ImportWords<'_>, summary: &Summary) {
    let Summary {
        classes,
        properties,
        signals,
        slots,
        given,
        added,
        unknown,
        narrowed,
        untyped,
        others,
    } = *summary;
    eprintln!(rt;
        "imported {classes} classes: {properties} properties, {signals} signals, {slots} slots"
    ).ok();
    eprintln!(rt; "{narrowed} types of other numbers and of enums are `int`").ok();
    eprintln!(rt;
        "left out: {untyped} members for their types, {others} for other reasons; comments name them"
    ).ok();
    if options.has_effects {
        eprintln!(rt;
            "{given} slots have the bodies that the effects give, {added} of them added"
        ).ok();
    }
    eprintln!(rt;
        "{unknown} slots have bodies that aren't known: a verdict says nothing of what these do"
    ).ok();
}
