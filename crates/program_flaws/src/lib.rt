//! What is wrong with a program, for a person: the declaration, the wire, the member or the binding by name; what leads from
//! one member to the next; and what to write instead. And what breaks the condition of a check's no.
#![tactic(auto)]

mod compared;
mod declarations;
mod edge;
mod expression;
mod ill_typed;
mod named_classes;
mod names;
mod node_name;
mod obstacles;
mod other_value;
mod places;
mod rows;
mod source;
mod statement;
mod warned;
mod wire;

pub use compared::cause_text;
pub use declarations::{FurtherFlaw, declaration_flaw, further_declaration_flaws, native_flaw};
pub use edge::push_edge;
pub use ill_typed::flaw_text;
pub use named_classes::{class_names, lineage};
pub use names::{class_text, node_text, property_text, sig_text, text_of};
pub use obstacles::{Obstacle, obstacle_along, obstacle_between, obstacle_text, unsettled_text};
pub use places::{Part, ProgramPlaces};
pub use rows::cause_place;
pub use source::{ProgramSource, ReadProgram, declarations_of};
pub use warned::{OwnSlot, Ranked, Warning, Yes, told_beside, warning_text, warnings};
pub use wire::{unfit_text, wire_text};
