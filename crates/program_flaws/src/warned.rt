//! What a person is told beside a yes: how deep a program's chains are, and what in a program that has a certificate is worth
//! a warning (docs/explanations.md, "After a success").

mod bodies;
mod chains;
mod connects;
mod idle_wires;
mod lineage;
mod notified_twice;
mod ranked;
mod remarks;
mod senders;
mod telling;
mod warning;

pub use bodies::OwnSlot;
pub use ranked::Ranked;
pub use remarks::{Yes, told_beside, warnings};
pub use telling::warning_text;
pub use warning::Warning;
