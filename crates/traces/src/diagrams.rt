//! Traces as sequence diagrams: a lifeline for the script and one for each object, and who does what to whom, in the language
//! of Mermaid.

mod diagram;
mod drawing;
mod lifelines;
mod message;

pub use diagram::sequence_diagram;
