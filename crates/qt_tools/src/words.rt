//! The process's words, which may be names of files and so any bytes.

use diagnostics::push_printed;
use std::alloc::{AllocError, Global};
use std::env::{Env, FillError};
use std::str;

/// The option that lets a program be as large as one that a tool writes.
pub const WIDE: &str = "--wide";

/// So many bytes of a word are looked for at first.
const ROOM: usize = 4096;

/// The process's words but the first one, which is the program's name.
pub fn words(rt: &HostRuntime) -> Result<Vec<Vec<u8>>, AllocError> {
    let mut words = Vec::new(rt.alloc());
    for number in 1..usize::MAX {
        match word(rt, number)? {
            Some(word) => words.push(word)?,
            None => break,
        }
    }
    Ok(words)
}

/// The word of this number; `None` behind the last one.
fn word(rt: &HostRuntime, number: usize) -> Result<Option<Vec<u8>>, AllocError> {
    let mut room = ROOM;
    for _ in 0..usize::BITS {
        let mut word = vec![in rt.alloc(); 0u8; room]?;
        match rt.arg(number, word.as_mut_slice()) {
            Ok(length) => {
                word.truncate(length);
                return Ok(Some(word));
            }
            Err(FillError::NotPresent) => return Ok(None),
            Err(FillError::TooLong) => room = room.saturating_add(room),
        }
    }
    Err(AllocError)
}

/// The words as texts: those that are none as a person is shown them, so that they are no option and name nothing that is there.
pub fn shown(alloc: Global, words: &[Vec<u8>]) -> Result<Vec<String>, AllocError> {
    let mut texts = Vec::new(alloc);
    for word in words {
        let word: &Vec<u8> = word;
        let text = match str::from_utf8(word.as_slice()) {
            Ok(text) => String::from_str(alloc, text)?,
            Err(_) => {
                let mut text = String::new(alloc);
                push_printed(&mut text, word.as_slice())?;
                text
            }
        };
        texts.push(text)?;
    }
    Ok(texts)
}
