//! A file as the list of its sections.

ghost use Rattle.std.specs.Prelude.{◌≡◌, ◌++◌, ◌∷◌, [], IfOk, OnOk};
ghost use Rattle.cases.specs.Order.{AreInOrder};

use crate::files::fault::CaseFault;
use crate::files::section::{CasePart, Section};
use std::alloc::{AllocError, Global};

/// The sections of a file in their order, behind the preface. `Malformed` at the first line that no section has, or that
/// begins none.
pub fn read_sections(alloc: Global, text: &[u8]) -> Result<Vec<Section>, CaseFault>
    ensures { IfOk result (λ sections. AreInOrder sections.items) }
{
    let mut sections = Vec::new(alloc);
    let mut current = Section::preface(alloc);
    let lines = text.strip_suffix(b"\n".as_slice()).unwrap_or(text);
    let mut number = 0usize;
    for line in lines.split(|byte| *byte == b'\n') {
        number = number.saturating_add(1);
        match Section::begun(alloc, number, line)? {
            None => current.add(number, line)?,
            Some(next) => {
                if current.part == CasePart::Preface && next.part != CasePart::Title {
                    return Err(CaseFault::Malformed(number, "no case has this section"));
                }
                keep(&mut sections, current)?;
                current = next;
            }
        }
    }
    keep(&mut sections, current)?;
    Ok(sections)
}

/// Adds a section behind the others; without memory nothing changes.
fn keep(sections: &mut Vec<Section>, section: Section) -> Result<(), AllocError>
    ensures { OnOk result (sections.new.items ≡ sections.old.items ++ section ∷ []) }
{
    sections.push(section)?;
    Ok(())
}
