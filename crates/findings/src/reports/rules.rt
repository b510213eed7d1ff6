//! The table of rules as JSON (docs/rules.md).

use crate::Rule;
use crate::reports::pretty::json_text;
use serde::Serialize;
use std::alloc::{AllocError, Global};

/// The page that has a part for each rule, headed by its name.
pub const PAGE: &str = "docs/rules.md";

/// A rule.
#[derive(Drop, Serialize)]
struct RuleEntry {
    id: &'static str,
    #[serde(skip_serializing_if = "Option::is_none")]
    number: Option<u8>,
    severity: &'static str,
    #[serde(rename = "changes")]
    may_change: bool,
    summary: &'static str,
    help: &'static str,
    page: String,
}

/// All rules as a list of JSON. Its only error is that memory was refused.
pub fn rules_report(alloc: Global) -> Result<String, AllocError> {
    let mut rules = Vec::new(alloc);
    for rule in Rule::ALL {
        rules.push(RuleEntry {
            id: rule.id(),
            number: rule.number(),
            severity: rule.severity().word(),
            may_change: !rule.is_refusal(),
            summary: rule.summary(),
            help: rule.help(),
            page: page_of(alloc, rule)?,
        })?;
    }
    json_text(alloc, &rules)
}

/// Where the pages say more of the rule.
pub fn page_of(alloc: Global, rule: Rule) -> Result<String, AllocError> {
    let id = rule.id();
    format!(in alloc; "{PAGE}#{id}")
}
