//! Why a word doesn't do what it is asked.

use class_graph::GraphFault;
use diagnostics::PlacesFault;
use findings::{LevelFault, ListFault};
use moc_import::ImportFault;
use run_witness::WitnessFault;
use script_tests::ExpectationFault;
use std::alloc::AllocError;
use std::io;
use thiserror::Error;

/// Why a word doesn't do what it is asked. Nothing is written on standard output then, but where a write failed or members
/// were left out.
#[derive(Debug, Drop, Error)]
pub enum ToolFault {
    /// The words are none that there are.
    #[error("usage: qt_tools [--wide] graph [--json] [--places] [--class CLASS,..] [--from MEMBER] < PROGRAM, import [--only CLASS,..] [--lean] [--strict] [--effects] < TEXTS, [--wide] session [--tap|--record] [--settling|--unchecked N] [--steps M] < TEXTS, [--wide] verdict [--json|--sarif|--junit|--accept-all|--rules] [--error RULE,..] [--warning RULE,..] [--off RULE,..] [--places] [--accept|--baseline] [--program NAME] [--certificate NAME] < TEXTS, view --plain|--color|--mermaid|--html < TRACE, or [--wide] witness < PROGRAM")]
    Usage,
    /// The program is refused, with the number that `gammonfig` gives.
    #[error("the program is refused with {0}: `gammonfig meta` says where")]
    Refused(u8),
    /// The program is refused with this number, which was explained before.
    #[error("the program is refused with {0}")]
    Explained(u8),
    /// The words name a class or a member that the program doesn't have, as this sentence says.
    #[error("{0}")]
    Unknown(String),
    /// The program has more edges than are drawn.
    #[error("the program has more than 262144 edges, which are too many for a picture")]
    TooManyEdges,
    /// What is imported isn't what moc writes, or a class that is asked for isn't there.
    #[error("{0}")]
    Unimported(ImportFault),
    /// Lines of effects have mistakes, which are reported before.
    #[error("nothing is imported, since the effects have mistakes")]
    Mistaken,
    /// The script isn't run, since a text is refused with this number.
    #[error("the script isn't run: a text is refused with {0}")]
    TextRefused(u64),
    /// The script isn't run, since the certificate isn't valid, for this reason.
    #[error("the script isn't run: the certificate isn't valid for the reason {0}")]
    Invalid(u64),
    /// No script was found whose run ends so.
    #[error("no script was found whose run ends so, which proves nothing")]
    NoWitness,
    /// The program has a certificate.
    #[error("the program has a certificate: no run of it ends so")]
    Certified,
    /// The program has a settling certificate.
    #[error("the program has a settling certificate: its circles come to rest, and no script of it nests without end")]
    Settles,
    /// Events of the script went otherwise than is expected.
    #[error("events went otherwise than is expected")]
    Otherwise,
    /// Something is wrong with the program or its certificate, and was reported.
    #[error("there are findings")]
    Found,
    /// A text is refused, which was reported.
    #[error("a text is refused")]
    Unjudged,
    /// The words name rules that can't be taken.
    #[error("{0}")]
    Unlevelled(LevelFault),
    /// A list of edges can't be read.
    #[error("{0}")]
    Unlisted(ListFault),
    /// Places in another text can't be read.
    #[error("{0}")]
    Unplaced(PlacesFault),
    /// A line of the script expects a line of the trace and stands above all events.
    #[error("{0}")]
    Unexpected(ExpectationFault),
    /// A script would be too long with what is recorded.
    #[error("the script isn't recorded: it would have more than 1048576 bytes")]
    LongScript,
    /// The input is longer than what is read of one.
    #[error("the input has more than 67108864 bytes")]
    TooLong,
    /// The input isn't text.
    #[error("the input isn't text in UTF-8")]
    NoText,
    /// Members were left out, and that is asked to be reported by the exit status.
    #[error("members were left out")]
    LeftOut,
    /// The input can't be read.
    #[error("the input can't be read: {0}")]
    Unread(io::Error),
    /// The output can't be written.
    #[error("the output can't be written: {0}")]
    Unwritten(io::Error),
    /// A growth of memory was refused.
    #[error("out of memory")]
    Memory,
}

impl ToolFault {
    /// The process's exit status: 2 for an input that is refused, 3 for one of which a part is left out, for a certificate
    /// that isn't valid, where something is found and where no witness was, 5 for a script whose events went otherwise than it expects, else 1.
    pub fn status(&self) -> u8 {
        match self {
            ToolFault::Refused(_)
            | ToolFault::Explained(_)
            | ToolFault::TextRefused(_)
            | ToolFault::Unexpected(_)
            | ToolFault::Unimported(_)
            | ToolFault::Unjudged
            | ToolFault::Unlisted(_)
            | ToolFault::Unplaced(_)
            | ToolFault::Unlevelled(_)
            | ToolFault::Mistaken
            | ToolFault::LongScript
            | ToolFault::TooLong
            | ToolFault::TooManyEdges
            | ToolFault::NoText => 2,
            ToolFault::LeftOut
            | ToolFault::Invalid(_)
            | ToolFault::Found
            | ToolFault::NoWitness
            | ToolFault::Certified
            | ToolFault::Settles => 3,
            ToolFault::Otherwise => 5,
            _ => 1,
        }
    }
}

impl From<AllocError> for ToolFault {
    fn from(_: AllocError) -> ToolFault {
        ToolFault::Memory
    }
}

impl From<ImportFault> for ToolFault {
    fn from(fault: ImportFault) -> ToolFault {
        match fault {
            ImportFault::Memory => ToolFault::Memory,
            refused => ToolFault::Unimported(refused),
        }
    }
}

impl From<GraphFault> for ToolFault {
    fn from(fault: GraphFault) -> ToolFault {
        match fault {
            GraphFault::Refused(number) => ToolFault::Refused(number),
            GraphFault::Unknown(sentence) => ToolFault::Unknown(sentence),
            GraphFault::TooLarge => ToolFault::TooManyEdges,
            GraphFault::Memory => ToolFault::Memory,
        }
    }
}

impl From<ExpectationFault> for ToolFault {
    fn from(fault: ExpectationFault) -> ToolFault {
        match fault {
            ExpectationFault::Memory => ToolFault::Memory,
            misplaced => ToolFault::Unexpected(misplaced),
        }
    }
}

impl From<WitnessFault> for ToolFault {
    fn from(fault: WitnessFault) -> ToolFault {
        match fault {
            WitnessFault::Refused(number) => ToolFault::Refused(number),
            WitnessFault::Memory => ToolFault::Memory,
        }
    }
}

impl From<PlacesFault> for ToolFault {
    fn from(fault: PlacesFault) -> ToolFault {
        match fault {
            PlacesFault::Memory => ToolFault::Memory,
            refused => ToolFault::Unplaced(refused),
        }
    }
}

impl From<LevelFault> for ToolFault {
    fn from(fault: LevelFault) -> ToolFault {
        match fault {
            LevelFault::Memory => ToolFault::Memory,
            refused => ToolFault::Unlevelled(refused),
        }
    }
}

impl From<ListFault> for ToolFault {
    fn from(fault: ListFault) -> ToolFault {
        match fault {
            ListFault::Memory => ToolFault::Memory,
            refused => ToolFault::Unlisted(refused),
        }
    }
}
