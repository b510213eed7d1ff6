//! The table of rules. All that is written of a rule is made of it: reports, the help of the words, and docs/rules.md.

use crate::rule::Rule;
use crate::severity::FindingSeverity;
use diagnostics::meaning;

/// What a rule goes by.
#[derive(Clone, Copy, Debug, PartialEq, Eq)]
pub enum Basis {
    /// A text that breaks it is refused with its number.
    Refusal,
    /// Its number is that of a condition of the check.
    Check,
    /// It is there for people alone, and has no number.
    Advice,
}

/// What a rule is.
#[derive(Clone, Copy, Debug, PartialEq, Eq)]
pub struct RuleRow {
    /// What it goes by.
    pub basis: Basis,
    /// Its name.
    pub id: &'static str,
    /// Its number, if it has one.
    pub number: Option<u8>,
    /// How grave it is by default.
    pub severity: FindingSeverity,
    /// What breaks it, in one sentence.
    pub summary: &'static str,
    /// What to do about it.
    pub help: &'static str,
}

impl RuleRow {
    /// What the rule is.
    pub fn of(rule: Rule) -> RuleRow {
        match rule {
            Rule::PlainReference => refusal(
                "plain-reference",
                2,
                "make it `const`, or pass a value",
            ),
            Rule::TooManyParameters => refusal(
                "too-many-parameters",
                3,
                "pass an object that has the values as properties",
            ),
            Rule::BadToken => refusal(
                "bad-token",
                4,
                "leave the byte out; a comment begins with `//`",
            ),
            Rule::Syntax => refusal("syntax", 5, "write what the message wants in this place"),
            Rule::TooDeep => refusal("too-deep", 6, "split the expression, or the block"),
            Rule::TooLarge => refusal("too-large", 7, "split the program, or take `--wide`"),
            Rule::DuplicateClass => refusal("duplicate-class", 10, "rename one of the classes"),
            Rule::NoBase => refusal("no-base", 11, "put the base before the class"),
            Rule::DuplicateName => refusal("duplicate-name", 12, "rename one of the two"),
            Rule::UnknownName => refusal("unknown-name", 13, "declare it, or mend its spelling"),
            Rule::BadNotify => refusal(
                "bad-notify",
                14,
                "declare the signal in the class, with no parameter or the property's type",
            ),
            Rule::BadType => refusal(
                "bad-type",
                15,
                "take `int`, `bool`, `QString` or a pointer to a class",
            ),
            Rule::WireTypes => check(
                "wire-types",
                70,
                "let the method take the first values of the signal",
            ),
            Rule::IllTyped => check(
                "ill-typed",
                71,
                "let the value be of the type that is wanted",
            ),
            Rule::Cycle => RuleRow {
                summary: "members may call one another at once, and so without end",
                ..check(
                    "cycle",
                    74,
                    "make a wire on the way `queued`, or accept its edges where it is known to end",
                )
            },
            Rule::DestroyPath => RuleRow {
                summary: "a slot or native may lead at once to the deletion of an object of its own class",
                ..check(
                    "destroy-path",
                    75,
                    "write `later` in the place of `delete`, or make a wire on the way `queued`",
                )
            },
            Rule::ChainTooLong => RuleRow {
                summary: "a chain of direct calls may nest deeper than 256",
                ..check("chain-too-long", 76, "make a wire on the way `queued`")
            },
            Rule::CertificateMissing => check("certificate-missing", 72, ANEW),
            Rule::CertificateExtra => check("certificate-extra", 73, ANEW),
            Rule::CertificateRank => check("certificate-rank", 74, ANEW),
            Rule::CertificateSet => check("certificate-set", 75, ANEW),
            Rule::CertificateBound => check("certificate-bound", 76, ANEW),
            Rule::CertificateSyntax => refusal("certificate-syntax", 77, ANEW),
            Rule::ReEntry => warning(
                "re-entry",
                "a slot that runs an event loop may be led back to by a posted call",
                "let the slot return, and go on in a slot that a `finished` signal calls, or block the way back while it runs",
            ),
            Rule::QueuedCycle => warning(
                "queued-cycle",
                "members may lead to one another through an event loop, for as long as that runs",
                "let a member on the way stop it: what is posted comes round with each turn of the event loop",
            ),
            Rule::SettlingCycle => RuleRow {
                severity: FindingSeverity::Note,
                ..warning(
                    "settling-cycle",
                    "members may call one another, but come to rest",
                    "`certify --settling` makes the program's certificate, and `run --settling` runs it",
                )
            },
            Rule::DeletesConnected => RuleRow {
                severity: FindingSeverity::Note,
                ..warning(
                    "deletes-connected",
                    "an object may be deleted while a call to it is posted, which is dropped",
                    "where the call has to arrive, wait for it before the object is deleted",
                )
            },
            Rule::SenderDeleted => warning(
                "sender-deleted",
                "a signal may lead at once to the deletion of its sender",
                "write `later` in the place of `delete`, or make a wire on the way `queued`",
            ),
            Rule::WireUnused => warning(
                "wire-unused",
                "a wire covers no connection that another wire doesn't cover",
                "leave the wire out",
            ),
            Rule::ConnectUncovered => warning(
                "connect-uncovered",
                "no wire covers a `connect`, which is refused whenever its objects are there",
                "declare the wire that the message names, or leave the statement out",
            ),
            Rule::NotifyEmittedTwice => warning(
                "notify-emitted-twice",
                "a slot sets a property and emits its `notify` signal itself",
                "leave the `emit` out: the change of the property emits the signal",
            ),
            Rule::EmptyProgram => warning(
                "empty-program",
                "a program declares nothing",
                "declare a class, or name another file",
            ),
        }
    }
}

/// A rule that is there for people alone.
fn warning(id: &'static str, summary: &'static str, help: &'static str) -> RuleRow {
    RuleRow {
        basis: Basis::Advice,
        id,
        number: None,
        severity: FindingSeverity::Warning,
        summary,
        help,
    }
}

/// What to do about a certificate.
const ANEW: &str = "make the certificate anew with `certify`";

/// A rule for which a text is refused with this number.
fn refusal(id: &'static str, number: u8, help: &'static str) -> RuleRow {
    RuleRow {
        basis: Basis::Refusal,
        ..check(id, number, help)
    }
}

/// A rule whose number is that of a condition of the check.
fn check(id: &'static str, number: u8, help: &'static str) -> RuleRow {
    RuleRow {
        basis: Basis::Check,
        id,
        number: Some(number),
        severity: FindingSeverity::Error,
        summary: meaning(number).unwrap_or(""),
        help,
    }
}
