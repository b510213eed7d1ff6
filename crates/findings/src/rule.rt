//! The rules that a program or a certificate may break.

use crate::severity::FindingSeverity;
use crate::table::{Basis, RuleRow};

/// A rule that a finding is about. Those of texts and of loading have the number of the refusal, those of the check the number
/// of the condition that no certificate, or not this one, can meet (docs/commands.md); what only a person is told of has none.
/// The table of `table.rt` says what each is.
#[derive(Clone, Copy, Debug, PartialEq, Eq)]
pub enum Rule {
    PlainReference,
    TooManyParameters,
    BadToken,
    Syntax,
    TooDeep,
    TooLarge,
    DuplicateClass,
    NoBase,
    DuplicateName,
    UnknownName,
    BadNotify,
    BadType,
    WireTypes,
    IllTyped,
    Cycle,
    DestroyPath,
    ChainTooLong,
    CertificateMissing,
    CertificateExtra,
    CertificateRank,
    CertificateSet,
    CertificateBound,
    CertificateSyntax,
    ReEntry,
    QueuedCycle,
    SettlingCycle,
    SenderDeleted,
    DeletesConnected,
    WireUnused,
    ConnectUncovered,
    NotifyEmittedTwice,
    EmptyProgram,
}

impl Rule {
    /// All of them.
    pub const ALL: [Rule; 32] = [
        Rule::PlainReference,
        Rule::TooManyParameters,
        Rule::BadToken,
        Rule::Syntax,
        Rule::TooDeep,
        Rule::TooLarge,
        Rule::DuplicateClass,
        Rule::NoBase,
        Rule::DuplicateName,
        Rule::UnknownName,
        Rule::BadNotify,
        Rule::BadType,
        Rule::WireTypes,
        Rule::IllTyped,
        Rule::Cycle,
        Rule::DestroyPath,
        Rule::ChainTooLong,
        Rule::CertificateMissing,
        Rule::CertificateExtra,
        Rule::CertificateRank,
        Rule::CertificateSet,
        Rule::CertificateBound,
        Rule::CertificateSyntax,
        Rule::ReEntry,
        Rule::QueuedCycle,
        Rule::SettlingCycle,
        Rule::SenderDeleted,
        Rule::DeletesConnected,
        Rule::WireUnused,
        Rule::ConnectUncovered,
        Rule::NotifyEmittedTwice,
        Rule::EmptyProgram,
    ];

    /// The rule for which a text is refused with this number; the grammar's for one that there isn't.
    pub fn of_refusal(number: u8) -> Rule {
        for rule in Rule::ALL {
            let row = rule.row();
            if row.basis == Basis::Refusal && row.number == Some(number) {
                return rule;
            }
        }
        Rule::Syntax
    }

    /// The rule of this name, which is one of the table.
    pub fn named(id: &str) -> Option<Rule> {
        for rule in Rule::ALL {
            if rule.id() == id {
                return Some(rule);
            }
        }
        None
    }

    /// Its name, which stays the same from version to version.
    pub fn id(self) -> &'static str {
        self.row().id
    }

    /// Its number, if it has one.
    pub fn number(self) -> Option<u8> {
        self.row().number
    }

    /// How grave it is where nothing else is asked for.
    pub fn severity(self) -> FindingSeverity {
        self.row().severity
    }

    /// Whether a text is refused that breaks it, so that how grave it is can't be changed.
    pub fn is_refusal(self) -> bool {
        self.row().basis == Basis::Refusal
    }

    /// What breaks it, in one sentence.
    pub fn summary(self) -> &'static str {
        self.row().summary
    }

    /// What to do about it, in one sentence.
    pub fn help(self) -> &'static str {
        self.row().help
    }

    /// What the table says of it.
    fn row(self) -> RuleRow {
        RuleRow::of(self)
    }
}
