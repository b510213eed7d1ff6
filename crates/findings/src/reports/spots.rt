//! Where something stands: in a text that is judged, or in the one from which a tool wrote the program.

use crate::reports::names::FileNames;
use crate::{ChainStep, JudgedText, TextPlace};
use diagnostics::{OtherPlace, Printed};
use std::alloc::{AllocError, Global};

/// What this place of a text stands for in the other text, where that is known.
pub fn origin<'n>(
    names: FileNames<'n>,
    text: JudgedText,
    place: Option<TextPlace>,
) -> Option<&'n OtherPlace<'n>> {
    match text {
        JudgedText::Program => {
            let TextPlace { line, column } = place?;
            names.places?.at(line, column)
        }
        JudgedText::Certificate => None,
    }
}

/// The file and the place that are told of this place of a text: those in the other text, where they are known.
pub fn told_at<'n>(
    names: FileNames<'n>,
    text: JudgedText,
    place: Option<TextPlace>,
) -> (&'n [u8], Option<TextPlace>) {
    match origin(names, text, place) {
        Some(other) => {
            let (line, column) = (other.other_line, other.other_column);
            (other.file, Some(TextPlace { line, column }))
        }
        None => (names.of(text), in_file(names, text, place)),
    }
}

/// The place in what the text is called, which may have lines in front of the text.
fn in_file(names: FileNames<'_>, text: JudgedText, place: Option<TextPlace>) -> Option<TextPlace> {
    let TextPlace { line, column } = place?;
    let before = match text {
        JudgedText::Program => 0,
        JudgedText::Certificate => names.certificate_lines,
    };
    Some(TextPlace {
        line: line.saturating_add(before),
        column,
    })
}

/// What is said of a step: of one that stands in the other text, by the words that stand there, and under which conditions it is
/// made; else what is said in the program.
pub fn step_text(
    alloc: Global,
    names: FileNames<'_>,
    step: &ChainStep,
) -> Result<String, AllocError> {
    let Some(place) = origin(names, JudgedText::Program, step.place) else {
        return String::from_str(alloc, step.message.as_str());
    };
    let mut text = if place.words.is_empty() {
        String::from_str(alloc, step.message.as_str())?
    } else {
        let (from, to) = (step.from.as_str(), step.to.as_str());
        let leads = if step.is_posted {
            "leads later"
        } else {
            "leads"
        };
        let words = Printed(place.words);
        format!(in alloc; "`{from}` {leads} to `{to}`: `{words}`")?
    };
    for condition in place.conditions.as_slice() {
        let condition = Printed(condition);
        write!(text, ", {condition}")?;
    }
    Ok(text)
}
