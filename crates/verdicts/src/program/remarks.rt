//! What is worth a warning or a note in a program, also in one that has a certificate.

use crate::program::deletions::{Deletion, add_lost_senders};
use crate::program::dropped::add_dropped_calls;
use crate::program::located::Located;
use crate::program::posts::PostGraph;
use crate::program::search::ProgramSearch;
use crate::program::turns::{add_queued_cycles, add_re_entries};
use findings::{Finding, JudgedText, Rule};
use program_flaws::{Warning, warning_text, warnings};
use std::alloc::{AllocError, Global};

/// What is worth a warning or a note.
#[derive(Drop)]
pub struct Remarks {
    pub findings: Vec<Finding>,
    /// The rules of others, which are only counted, since so many were looked for before them.
    pub untold: Vec<Rule>,
    /// The rules of which there are more, which aren't counted either: one for each search that ended early.
    pub cut: Vec<Rule>,
}

impl Remarks {
    /// Nothing yet.
    pub fn new(alloc: Global) -> Remarks {
        Remarks {
            findings: Vec::new(alloc),
            untold: Vec::new(alloc),
            cut: Vec::new(alloc),
        }
    }

    /// Whether there is nothing.
    pub fn is_empty(&self) -> bool {
        self.findings.is_empty() && self.untold.is_empty() && self.cut.is_empty()
    }
}

/// Adds what is worth it, in the order of the rules and of the text.
pub fn add_remarks(
    search: ProgramSearch<'_>,
    deletions: &[Deletion],
    remarks: &mut Remarks,
) -> Result<(), AllocError> {
    let located = search.located;
    let posts = PostGraph::of(search)?;
    add_re_entries(search, &posts, &mut remarks.findings)?;
    add_queued_cycles(search, &posts, remarks)?;
    add_lost_senders(located, deletions, &mut remarks.findings)?;
    add_dropped_calls(search, &posts, &mut remarks.findings)?;
    for warning in warnings(located.source.alloc, located.source.meta, None)? {
        let finding = warning_finding(located, &warning)?;
        remarks.findings.push(finding)?;
    }
    Ok(())
}

/// The warning as a finding.
fn warning_finding(located: Located<'_>, warning: &Warning) -> Result<Finding, AllocError> {
    let alloc = located.source.alloc;
    let rule = rule_of(warning);
    Ok(Finding {
        rule,
        message: warning_text(alloc, located.source.meta, warning)?,
        help: Some(String::from_str(alloc, rule.help())?),
        text: JudgedText::Program,
        place: warning.place(located.source, located.places),
        chain: Vec::new(alloc),
    })
}

/// The rule that it is about.
fn rule_of(warning: &Warning) -> Rule {
    match warning {
        Warning::Empty => Rule::EmptyProgram,
        Warning::IdleWire { .. } => Rule::WireUnused,
        Warning::Unwired { .. } => Rule::ConnectUncovered,
        Warning::NotifiedTwice { .. } => Rule::NotifyEmittedTwice,
        Warning::LostSender { .. } => Rule::SenderDeleted,
    }
}
