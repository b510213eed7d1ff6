//! Texts of effects are read line by line:
//!
//! ```text
//! line   = CLASS "." SLOT types {effect}
//! effect = "emits" SIGNAL [types] {"," SIGNAL [types]} | "sets" path {"," path}
//!        | "calls" path [types] {"," path [types]} | "deletes" path {"," path}
//! path   = ["this" "."] NAME {"." NAME} | "this"
//! types  = "(" [TYPE {"," TYPE}] ")"
//! ```

use crate::classes::{MocArgument, MocMethod};
use crate::effects::fault::LineFault;
use crate::effects::line::{EffectLine, EffectVerb, NumberedLine, SlotEffect};
use crate::effects::scanner::{LineScanner, first_word};
use basic_types::is_name;
use std::alloc::{AllocError, Global};

/// So many things a line names at most: a class that is declared has fewer members than this.
const MOST_EFFECTS: usize = 4096;

/// The lines of a text that have more than a comment.
pub fn lines<'e>(alloc: Global, text: &'e str) -> Result<Vec<NumberedLine<'e>>, AllocError> {
    let mut lines = Vec::new(alloc);
    for (place, line) in text.lines().enumerate() {
        let mut scanner = LineScanner::of(line);
        if scanner.is_done() {
            continue;
        }
        let read = match line_of(alloc, &mut scanner) {
            Err(LineFault::Memory) => return Err(AllocError),
            read => read,
        };
        lines.push(NumberedLine {
            number: place.saturating_add(1),
            read,
        })?;
    }
    Ok(lines)
}

/// What a line says.
fn line_of<'e>(
    alloc: Global,
    scanner: &mut LineScanner<'e>,
) -> Result<EffectLine<'e>, LineFault<'e>> {
    let Some((class, name)) = scanner.word().rsplit_once('.') else {
        return Err(LineFault::NoSlot);
    };
    let slot = slot(alloc, scanner, name)?;
    let effects = effects(alloc, scanner)?;
    Ok(EffectLine {
        class,
        slot,
        effects,
    })
}

/// Takes the types of the slot of this name, as moc would write it.
fn slot<'e>(
    alloc: Global,
    scanner: &mut LineScanner<'e>,
    name: &str,
) -> Result<MocMethod, LineFault<'e>> {
    match types(alloc, scanner)? {
        Some(types) => Ok(moc_method(alloc, name, types.as_slice())?),
        None => Err(LineFault::NoSlot),
    }
}

/// Takes what the slot does.
fn effects<'e>(
    alloc: Global,
    scanner: &mut LineScanner<'e>,
) -> Result<Vec<SlotEffect<'e>>, LineFault<'e>> {
    let mut effects = Vec::new(alloc);
    // Each round takes a letter at least.
    for _ in 0..scanner.len() {
        if scanner.is_done() {
            break;
        }
        push_effects(alloc, scanner, &mut effects)?;
    }
    Ok(effects)
}

/// Takes a verb, and adds what follows it.
fn push_effects<'e>(
    alloc: Global,
    scanner: &mut LineScanner<'e>,
    effects: &mut Vec<SlotEffect<'e>>,
) -> Result<(), LineFault<'e>> {
    let rest = scanner.rest();
    let Some(verb) = EffectVerb::of(scanner.word()) else {
        return Err(LineFault::NoVerb(first_word(rest)));
    };
    for _ in 0..scanner.len().saturating_add(1) {
        if effects.len() >= MOST_EFFECTS {
            return Err(LineFault::TooMuch);
        }
        effects.push(effect(alloc, scanner, verb)?)?;
        if !scanner.eat(',') {
            break;
        }
    }
    Ok(())
}

/// Takes what is named behind a verb.
fn effect<'e>(
    alloc: Global,
    scanner: &mut LineScanner<'e>,
    verb: EffectVerb,
) -> Result<SlotEffect<'e>, LineFault<'e>> {
    let path = path(scanner)?;
    let types = if verb.names_method() {
        types(alloc, scanner)?
    } else {
        None
    };
    Ok(SlotEffect { verb, path, types })
}

/// Takes a path; a `this.` in front is left out of it.
fn path<'e>(scanner: &mut LineScanner<'e>) -> Result<&'e str, LineFault<'e>> {
    if scanner.is_done() {
        return Err(LineFault::NoName);
    }
    let rest = scanner.rest();
    let word = scanner.word();
    let path = word.strip_prefix("this.").unwrap_or(word);
    if is_path(path) {
        Ok(path)
    } else {
        Err(LineFault::NoPath(first_word(rest)))
    }
}

/// Whether the text is names with a `.` between them.
fn is_path(text: &str) -> bool {
    for name in text.split('.') {
        if !is_name(name.as_bytes()) {
            return false;
        }
    }
    true
}

/// Takes the types in brackets, if brackets stand next.
fn types<'e>(
    alloc: Global,
    scanner: &mut LineScanner<'e>,
) -> Result<Option<Vec<&'e str>>, LineFault<'e>> {
    if !scanner.eat('(') {
        return Ok(None);
    }
    let Some(inside) = scanner.until(')') else {
        return Err(LineFault::Unclosed);
    };
    let mut types = Vec::new(alloc);
    if inside.trim().is_empty() {
        return Ok(Some(types));
    }
    for part in inside.split(',') {
        let kind = part.trim();
        if kind.is_empty() {
            return Err(LineFault::NoType);
        }
        types.push(kind)?;
    }
    Ok(Some(types))
}

/// The method as moc would write it.
fn moc_method(alloc: Global, name: &str, types: &[&str]) -> Result<MocMethod, AllocError> {
    let mut arguments = Vec::new(alloc);
    for kind in types {
        arguments.push(argument(alloc, kind)?)?;
    }
    Ok(MocMethod {
        name: String::from_str(alloc, name)?,
        arguments,
    })
}

/// A parameter without a name.
fn argument(alloc: Global, kind: &str) -> Result<MocArgument, AllocError> {
    let kind = String::from_str(alloc, kind)?;
    let name = String::new(alloc);
    Ok(MocArgument { name, kind })
}
