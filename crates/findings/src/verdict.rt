//! What is found of a program and its certificate.

ghost use Rattle.std.specs.Prelude.{◌≡◌, ◌≢◌, ◌<◌, ◌+◌, ◌-◌, ◌^◌, ◌↔◌, ◌++◌, ◌∷◌, [], Some, None, IfSome, OnOk, count_by};
ghost use Rattle.findings.specs.declared.severity.FindingSeverity.{FindingSeverity};
ghost use Rattle.findings.specs.declared.severity.FindingSeverity.TheVariants.{Error};
ghost use Rattle.findings.specs.Listed.{findings_of};

use crate::edge::PlacedEdge;
use crate::finding::Finding;
use crate::rule::Rule;
use crate::severity::FindingSeverity;
use std::alloc::{AllocError, Global};

/// So many findings of one rule are reported, so that none keeps those of another one out.
const MOST_TOLD: usize = 100;

/// What is found of a program and its certificate.
#[derive(Drop)]
pub struct Verdict {
    /// The errors: the first hundred of each rule.
    pub errors: Vec<Finding>,
    /// The warnings: the first hundred of each rule.
    pub warnings: Vec<Finding>,
    /// The notes: the first hundred of each rule.
    pub notes: Vec<Finding>,
    /// How many more errors there are.
    pub more_errors: usize,
    /// How many more warnings and notes there are.
    pub more_others: usize,
    /// Whether there are more than these counts say: a search for them ended early.
    pub is_least: bool,
    /// The edges on which there are cycles and that can be accepted, whether they are or not.
    pub edges: Vec<PlacedEdge>,
    /// How many of these are accepted.
    pub accepted: usize,
    /// How many edges are on loops of bindings, which can't be accepted.
    pub bound: usize,
    /// The edges that warnings and notes are about.
    pub remarked: Vec<PlacedEdge>,
    /// Those of the list of accepted edges that aren't there, by their places; none where the program doesn't load.
    pub absent: Vec<usize>,
    /// The exit status: 0 where no error is found, 3 where one is, 2 where a text is refused.
    pub status: u8,
}

impl Verdict {
    /// Nothing is found yet, and this is the exit status.
    pub fn new(alloc: Global, status: u8) -> Verdict
        ensures status { result.status ≡ status }
        ensures accepted { result.accepted ≡ 0 }
        ensures edges { result.edges.items ≡ [] }
        ensures errors { result.errors.items ≡ [] }
        ensures more_errors { result.more_errors ≡ 0 }
    {
        Verdict {
            errors: Vec::new(alloc),
            warnings: Vec::new(alloc),
            notes: Vec::new(alloc),
            more_errors: 0,
            more_others: 0,
            is_least: false,
            edges: Vec::new(alloc),
            accepted: 0,
            bound: 0,
            remarked: Vec::new(alloc),
            absent: Vec::new(alloc),
            status,
        }
    }

    /// The severity of one more finding of the rule that is as grave as this, or off, if it is reported: where it isn't, but
    /// isn't off, it is counted.
    pub fn taken(&mut self, rule: Rule, asked: Option<FindingSeverity>) -> Option<FindingSeverity>
        ensures same { IfSome result (λ severity. asked ≡ Some severity) }
        ensures told { (severity : FindingSeverity) → asked ≡ Some severity →
            (result ≡ asked ↔
            (count_by (λ finding. ⟦<Rule as PartialEq>⟧.eq finding.rule rule) (findings_of severity self.old) < 100)) }
        ensures counted { asked ≡ Some Error → result ≡ None → self.old.more_errors < 2 ^ 64 - 1 →
            self.new.more_errors ≡ self.old.more_errors + 1 }
        ensures uncounted { asked ≢ Some Error → self.new.more_errors ≡ self.old.more_errors }
        ensures errors { self.new.errors ≡ self.old.errors }
        ensures status { self.new.status ≡ self.old.status }
    {
        let Some(severity) = asked else {
            return None;
        };
        if self.count_of(rule, severity) < MOST_TOLD {
            return Some(severity);
        }
        self.count(asked);
        None
    }

    /// Counts one more finding that is as grave as this, or off, and isn't reported.
    pub fn count(&mut self, asked: Option<FindingSeverity>)
        ensures errors { self.new.errors ≡ self.old.errors }
        ensures status { self.new.status ≡ self.old.status }
        ensures counted { asked ≡ Some Error → self.old.more_errors < 2 ^ 64 - 1 →
            self.new.more_errors ≡ self.old.more_errors + 1 }
        ensures uncounted { asked ≢ Some Error → self.new.more_errors ≡ self.old.more_errors }
        ensures off { asked ≡ None → self.new ≡ self.old }
    {
        match asked {
            Some(FindingSeverity::Error) => self.more_errors = self.more_errors.saturating_add(1),
            Some(FindingSeverity::Warning | FindingSeverity::Note) => {
                self.more_others = self.more_others.saturating_add(1);
            }
            None => {}
        }
    }

    /// How many findings of the rule are reported with this severity.
    fn count_of(&self, rule: Rule, severity: FindingSeverity) -> usize
        ensures { result ≡ count_by (λ finding. ⟦<Rule as PartialEq>⟧.eq finding.rule rule) (findings_of severity self.now) }
    {
        self.findings_of(severity)
            .iter()
            .filter(|finding| finding.rule == rule)
            .count()
    }

    /// Adds a finding that is reported.
    pub fn push(&mut self, severity: FindingSeverity, finding: Finding) -> Result<(), AllocError>
        ensures added { OnOk result (findings_of severity self.new ≡ findings_of severity self.old ++ finding ∷ []) }
        ensures errors { severity ≢ Error → self.new.errors ≡ self.old.errors }
        ensures more_errors { self.new.more_errors ≡ self.old.more_errors }
        ensures status { self.new.status ≡ self.old.status }
    {
        match severity {
            FindingSeverity::Error => {
                self.errors.push(finding)?;
                Ok(())
            }
            FindingSeverity::Warning => {
                self.warnings.push(finding)?;
                Ok(())
            }
            FindingSeverity::Note => {
                self.notes.push(finding)?;
                Ok(())
            }
        }
    }

    /// Those findings of this severity that are reported.
    pub fn findings_of(&self, severity: FindingSeverity) -> &[Finding]
        ensures { result.now ≡ findings_of severity self.now }
    {
        match severity {
            FindingSeverity::Error => self.errors.as_slice(),
            FindingSeverity::Warning => self.warnings.as_slice(),
            FindingSeverity::Note => self.notes.as_slice(),
        }
    }

    /// How many findings are reported.
    pub fn reported(&self) -> usize {
        self.errors
            .len()
            .saturating_add(self.warnings.len())
            .saturating_add(self.notes.len())
    }

    /// How many errors there are, or at least as many (`is_least`).
    pub fn error_count(&self) -> usize {
        self.errors.len().saturating_add(self.more_errors)
    }

    /// How many more findings there are than are reported, or at least as many (`is_least`).
    pub fn more(&self) -> usize {
        self.more_errors.saturating_add(self.more_others)
    }
}
