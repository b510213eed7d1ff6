//! A verdict as a text for people and editors, as JSON, as SARIF, and as JUnit; and the table of rules.

mod json;
mod junit;
mod names;
mod pretty;
mod rules;
mod sarif;
mod spots;
mod text;
mod uri;

pub use json::json_report;
pub use junit::junit_report;
pub use names::FileNames;
pub use rules::rules_report;
pub use sarif::sarif_report;
pub use text::{push_finding, text_report};
