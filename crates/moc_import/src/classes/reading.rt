//! The texts that are read, parted by lines `%%`.

use crate::classes::fault::ImportFault;
use crate::classes::moc::MocFile;
use std::alloc::{AllocError, Global};

/// What parts two texts.
pub const BORDER: &str = "\n%%\n";

/// So many classes are read: which of them are bases, and may be listed, is looked for again and again.
const MOST_CLASSES: usize = 8192;

/// Reads each text: what moc writes of one header, or a list of these. The error names the first one that is no such, or
/// there are more classes than are read.
pub fn files(alloc: Global, input: &str) -> Result<Vec<MocFile>, ImportFault> {
    let mut files = Vec::new(alloc);
    for (place, text) in input.split(BORDER).enumerate() {
        push_files(alloc, &mut files, text, place.saturating_add(1))?;
    }
    let mut classes = 0usize;
    for file in files.as_slice() {
        let file: &MocFile = file;
        classes = classes.saturating_add(file.classes.len());
    }
    if classes > MOST_CLASSES {
        return Err(ImportFault::TooManyClasses);
    }
    Ok(files)
}

/// Adds what a text has.
fn push_files(
    alloc: Global,
    files: &mut Vec<MocFile>,
    text: &str,
    number: usize,
) -> Result<(), ImportFault> {
    if text.trim_start().starts_with('[') {
        match serde_json::from_str::<Vec<MocFile>>(alloc, text) {
            Ok(more) => Ok(append(files, more)?),
            Err(fault) => Err(unread(&fault, number)),
        }
    } else {
        match serde_json::from_str::<MocFile>(alloc, text) {
            Ok(file) => Ok(push(files, file)?),
            Err(fault) => Err(unread(&fault, number)),
        }
    }
}

/// Why the text of this number isn't read.
fn unread(fault: &serde_json::Error, number: usize) -> ImportFault {
    if fault.is_memory() {
        return ImportFault::Memory;
    }
    ImportFault::BadJson {
        text: number,
        line: fault.line(),
        column: fault.column(),
    }
}

fn push(files: &mut Vec<MocFile>, file: MocFile) -> Result<(), AllocError> {
    files.push(file)?;
    Ok(())
}

/// Moves what the one list has behind the other.
fn append(files: &mut Vec<MocFile>, more: Vec<MocFile>) -> Result<(), AllocError> {
    let mut more = more;
    files.append(&mut more)
}
