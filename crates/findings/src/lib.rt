//! Findings as values: rules with their severities, messages, places, and the steps that lead to them; and lists of edges that
//! are accepted.
#![tactic(auto)]

mod edge;
mod edge_index;
mod finding;
mod levels;
mod reports;
mod rule;
mod severity;
mod table;
mod verdict;

pub use diagnostics::TextPlace;
pub use edge::{Edge, ListFault, PlacedEdge, edge_list, read_edges};
pub use edge_index::EdgeIndex;
pub use finding::{ChainStep, Finding, JudgedText, Link};
pub use levels::{LevelChange, LevelFault, Levels, change_levels};
pub use reports::{
    FileNames, json_report, junit_report, push_finding, rules_report, sarif_report, text_report,
};
pub use rule::Rule;
pub use severity::FindingSeverity;
pub use verdict::Verdict;
