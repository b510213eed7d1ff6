//! What is found.

use crate::rule::Rule;
use diagnostics::TextPlace;
use edge_reasons::Reason;

/// The text that something is in.
#[derive(Clone, Copy, Debug, PartialEq, Eq)]
pub enum JudgedText {
    Program,
    Certificate,
}

/// Something that is wrong.
#[derive(Drop)]
pub struct Finding {
    /// The rule that is broken.
    pub rule: Rule,
    /// What is wrong, in one sentence.
    pub message: String,
    /// What to do about it, where that is known.
    pub help: Option<String>,
    /// The text that it is in.
    pub text: JudgedText,
    /// Where it is there; `None` for what is in no line, as the objects' class `QObject`.
    pub place: Option<TextPlace>,
    /// The steps that lead to it, one after another; there may be none.
    pub chain: Vec<ChainStep>,
}

impl Finding {
    /// The step that the finding is about, if it has steps: of one on deletions the last one, which deletes, else the first.
    pub fn edge(&self) -> Option<&ChainStep> {
        match self.rule {
            Rule::DestroyPath | Rule::SenderDeleted | Rule::DeletesConnected => self.chain.last(),
            _ => self.chain.first(),
        }
    }
}

/// What leads from one member to the next.
#[derive(Clone, Copy, Debug, PartialEq, Eq)]
pub enum Link {
    /// A statement of a slot's body.
    Statement,
    /// What a native is declared to do.
    Native,
    /// A wire that isn't queued.
    Wire,
    /// A property's `notify`.
    Notify,
    /// A binding that reads the property.
    Binding,
    /// The deletion of objects.
    Deletion,
}

impl Link {
    /// What draws an edge for this reason.
    pub fn of(reason: Reason) -> Link {
        match reason {
            Reason::Statement(_) => Link::Statement,
            Reason::Native => Link::Native,
            Reason::Wire(_) => Link::Wire,
            Reason::Notify => Link::Notify,
            Reason::Binding(_) => Link::Binding,
            Reason::Deletion => Link::Deletion,
        }
    }

    /// It, in a word.
    pub fn word(self) -> &'static str {
        match self {
            Link::Statement => "statement",
            Link::Native => "native",
            Link::Wire => "wire",
            Link::Notify => "notify",
            Link::Binding => "binding",
            Link::Deletion => "deletion",
        }
    }
}

/// That one member may lead to another. Members are written as in certificates.
#[derive(Drop)]
pub struct ChainStep {
    /// The first member.
    pub from: String,
    /// What it may lead to.
    pub to: String,
    /// By what.
    pub link: Link,
    /// Whether it comes later, when an event loop turns.
    pub is_posted: bool,
    /// The same in a sentence.
    pub message: String,
    /// Where in the program it is by which it does; `None` for what is in no line.
    pub place: Option<TextPlace>,
}
