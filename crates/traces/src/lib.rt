//! Traces, read and shown: what a line of one tells; lines indented and coloured for people; pages of HTML and lines beside
//! their scripts; and sequence diagrams.
#![tactic(auto)]

mod diagrams;
mod layout;
mod pages;
mod reading;

pub use diagrams::sequence_diagram;
pub use layout::show_trace;
pub use pages::{laid_out_trace, trace_page};
pub use reading::TraceLine;
