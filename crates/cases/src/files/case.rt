//! The cases of a file.

use crate::files::fault::CaseFault;
use crate::files::section::{CasePart, Section};
use std::alloc::{AllocError, Global};

/// A case: its title, and its other sections.
#[derive(Clone, Copy)]
pub struct Case<'a> {
    title: &'a Section,
    sections: &'a [Section],
}

/// The cases that a file's sections are.
pub fn cases<'a>(alloc: Global, sections: &'a [Section]) -> Result<Vec<Case<'a>>, AllocError> {
    let mut cases = Vec::new(alloc);
    for chunk in sections.chunk_by(|_, next| next.part != CasePart::Title) {
        if let Some((title, sections)) = chunk.split_first() {
            if title.part == CasePart::Title {
                cases.push(Case { title, sections })?;
            }
        }
    }
    Ok(cases)
}

impl<'a> Case<'a> {
    /// What it is about.
    pub fn title(&self) -> &'a str {
        self.title.head.as_str()
    }

    /// The line of the file with which it begins.
    pub fn line(&self) -> usize {
        self.title.line
    }

    /// Its sections behind the title.
    pub fn sections(&self) -> &'a [Section] {
        self.sections
    }

    /// The text that its sections of this part have together; `None` where there is no such section.
    pub fn text(&self, alloc: Global, part: CasePart) -> Result<Option<Vec<u8>>, CaseFault> {
        let mut text = Vec::new(alloc);
        let mut is_there = false;
        for section in self.sections {
            if section.part == part {
                section.push_text(alloc, &mut text)?;
                is_there = true;
            }
        }
        Ok(if is_there { Some(text) } else { None })
    }

    /// Whether it has a section of this part.
    pub fn has(&self, part: CasePart) -> bool {
        self.sections.iter().any(|section| section.part == part)
    }

    /// The exit status of each of its command lines; 0 where it has no such section.
    pub fn status(&self) -> Result<u8, CaseFault> {
        for section in self.sections {
            if section.part == CasePart::Status {
                return match section.head.as_str().parse::<u8>() {
                    Ok(status) => Ok(status),
                    Err(_) => Err(CaseFault::Malformed(section.line, "this is no status")),
                };
            }
        }
        Ok(0)
    }
}
