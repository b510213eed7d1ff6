//! What a person is told of a text: a sentence with its place, the line around it, what to write instead, and the word that was
//! meant; and places of another text, from which a tool wrote a program.
#![tactic(auto)]

mod cut;
mod edits;
mod excerpt;
mod flaw;
mod line;
mod literals;
mod meanings;
mod message;
mod other_text;
mod place;
mod printed;
mod spans;

pub use cut::{placed_or_none, tokens_or_none};
pub use edits::{did_you_mean, nearest};
pub use flaw::Flaw;
pub use line::{has_tokens, number_behind};
pub use literals::literal_for;
pub use meanings::meaning;
pub use message::{Severity, TextKind, TextLine, push_flaw};
pub use other_text::{OtherPlace, OtherPlaces, PlacesFault, read_places};
pub use place::TextPlace;
pub use printed::{Printed, push_printed, push_printed_lines};
pub use spans::{PARTING, Span, text_spans};
