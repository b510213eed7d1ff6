//! The answer of `check` or `certify` as a finding.

use crate::certificate::rule_of;
use diagnostics::TextPlace;
use findings::{Finding, JudgedText, Rule};
use program_commands::{Outcome, Refusal, Why};
use rank_check::Cause;
use std::alloc::{AllocError, Global};

/// What is answered, as a finding at the beginning of the text: for where nothing that is wrong is found by itself, so that
/// no status stands without one.
pub fn judged_finding(alloc: Global, judged: &Outcome) -> Result<Finding, AllocError> {
    let rule = broken_rule(judged);
    Ok(Finding {
        rule,
        message: String::from_str(alloc, rule.summary())?,
        help: None,
        text: text_of(judged),
        place: Some(TextPlace { line: 1, column: 1 }),
        chain: Vec::new(alloc),
    })
}

/// The rule that is broken; the grammar's where none is.
fn broken_rule(judged: &Outcome) -> Rule {
    match judged {
        Outcome::Refused(Refusal::Check(denied)) => rule_of(denied.cause()),
        Outcome::Refused(refusal) => Rule::of_refusal(refusal.number().unwrap_or(0)),
        Outcome::Uncertified(_, why) => match why {
            Why::Wire(_) => Rule::WireTypes,
            Why::BodyType(_) => Rule::IllTyped,
            Why::Cycle(_) => Rule::Cycle,
            Why::DestroyPath(_) => Rule::DestroyPath,
            Why::TooHigh(_) | Why::Memory => Rule::ChainTooLong,
        },
        Outcome::Classes(_) | Outcome::Certificate(_) | Outcome::Valid(_) | Outcome::Settling(_) =>
            Rule::Syntax,
    }
}

/// The text that it is about.
fn text_of(judged: &Outcome) -> JudgedText {
    match judged {
        Outcome::Refused(Refusal::Certificate(_)) => JudgedText::Certificate,
        Outcome::Refused(Refusal::Check(denied)) => match denied.cause() {
            Cause::Wire(_) | Cause::BodyType(_) => JudgedText::Program,
            _ => JudgedText::Certificate,
        },
        _ => JudgedText::Program,
    }
}
