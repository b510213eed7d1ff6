//! The names of the texts.

use crate::JudgedText;
use diagnostics::{OtherPlaces, push_printed};
use std::alloc::{AllocError, Global};
use std::str;

/// What the texts are called: the names of their files, where they are files. Such a name may be any bytes.
#[derive(Clone, Copy)]
pub struct FileNames<'n> {
    /// The program.
    pub program: &'n [u8],
    /// Its certificate.
    pub certificate: &'n [u8],
    /// How many lines stand in front of the certificate in what is called so.
    pub certificate_lines: usize,
    /// What places of the program stand for in another text, from which a tool wrote it; where they stand for something,
    /// that is told.
    pub places: Option<&'n OtherPlaces<'n>>,
}

impl<'n> FileNames<'n> {
    /// What the text is called.
    pub fn of(&self, text: JudgedText) -> &'n [u8] {
        match text {
            JudgedText::Program => self.program,
            JudgedText::Certificate => self.certificate,
        }
    }
}

/// The name as a text: one that is none as a person is shown it.
pub fn name_text(alloc: Global, name: &[u8]) -> Result<String, AllocError> {
    match str::from_utf8(name) {
        Ok(text) => String::from_str(alloc, text),
        Err(_) => {
            let mut text = String::new(alloc);
            push_printed(&mut text, name)?;
            Ok(text)
        }
    }
}
