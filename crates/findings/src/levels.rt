//! How grave rules are made by whoever asks.

ghost use Rattle.std.specs.Prelude.{◌≡◌, ◌≢◌, [], Some, None, IfSome};
ghost use Rattle.findings.specs.declared.severity.FindingSeverity.TheVariants.{Error};

use crate::rule::Rule;
use crate::severity::FindingSeverity;
use std::alloc::AllocError;
use thiserror::Error;

/// That a rule has another severity than in the table, or that it is off.
#[derive(Clone, Copy, Debug, PartialEq, Eq)]
pub struct LevelChange {
    /// The rule.
    pub rule: Rule,
    /// How grave it is; `None` where it is off.
    pub severity: Option<FindingSeverity>,
}

/// How grave each rule is: as the table says, but for these changes, of which the last one of a rule counts.
#[derive(Clone, Copy, Debug)]
pub struct Levels<'l> {
    pub changes: &'l [LevelChange],
}

/// Why the names of rules aren't taken.
#[derive(Clone, Copy, Debug, PartialEq, Eq, Error)]
pub enum LevelFault {
    /// A name is none of a rule.
    #[error("the words name a rule that isn't there: `verdict --rules` has all of them")]
    Unknown,
    /// A text that breaks the rule is refused.
    #[error("the words name a rule for which a text is refused: that is an error always")]
    Refusal,
    /// A growth of memory was refused.
    #[error("out of memory")]
    Memory,
}

impl From<AllocError> for LevelFault {
    fn from(_: AllocError) -> LevelFault {
        LevelFault::Memory
    }
}

impl<'l> Levels<'l> {
    /// How grave the rule is; `None` where it is off.
    pub fn of(self, rule: Rule) -> Option<FindingSeverity> {
        match self.change_of(rule) {
            Some(change) => change.severity,
            None => Some(rule.severity()),
        }
    }

    /// How grave the rule is of which a program is told that has a certificate. It is no error but where that is asked for.
    pub fn of_remark(self, rule: Rule) -> Option<FindingSeverity>
        ensures { self.entry.changes.now ≡ [] → result ≢ Some Error }
    {
        match self.change_of(rule) {
            Some(change) => change.severity,
            None => match rule.severity() {
                FindingSeverity::Note => Some(FindingSeverity::Note),
                FindingSeverity::Error | FindingSeverity::Warning => Some(FindingSeverity::Warning),
            },
        }
    }

    /// The last change of the rule.
    fn change_of(self, rule: Rule) -> Option<LevelChange>
        ensures { self.entry.changes.now ≡ [] → result ≡ None }
    {
        if self.changes.is_empty() {
            return None;
        }
        let mut found = None;
        for change in self.changes {
            if change.rule == rule {
                found = Some(*change);
            }
        }
        found
    }
}

/// Adds a change.
fn push_change(changes: &mut Vec<LevelChange>, change: LevelChange) -> Result<(), AllocError> {
    changes.push(change)?;
    Ok(())
}

/// Adds that the rules of these names, which commas part, are as grave as this, or off.
pub fn change_levels(
    changes: &mut Vec<LevelChange>,
    names: &str,
    severity: Option<FindingSeverity>,
) -> Result<(), LevelFault> {
    for name in names.split(',') {
        let Some(rule) = Rule::named(name) else {
            return Err(LevelFault::Unknown);
        };
        if rule.is_refusal() {
            return Err(LevelFault::Refusal);
        }
        push_change(changes, LevelChange { rule, severity })?;
    }
    Ok(())
}
