//! Why a script, or a line of it, isn't read.

use std::alloc::AllocError;
use texts::LexFault;
use thiserror::Error;
use token_reading::ParseFault;

/// Why a text is no script.
#[derive(Debug, Drop, Error)]
pub enum ScriptFault {
    /// More than 1,048,576 bytes: refusal 7.
    #[error("the script is too large")]
    TooLarge,
    /// The first line outside the grammar, counted from 1: refusal 16.
    #[error("line {0} is no event")]
    BadLine(usize),
    /// A growth of memory was refused.
    #[error("out of memory")]
    Memory,
}

impl From<AllocError> for ScriptFault {
    ghost use Rattle.std.specs.Prelude.{◌≡◌};
    ghost use Rattle.script_lang.specs.declared.fault.ScriptFault.TheVariants.{Memory};

    ghost from_gives = { λ _ fault. fault ≡ Memory };

    fn from(_: AllocError) -> ScriptFault {
        ScriptFault::Memory
    }
}

/// Why a line isn't read.
#[derive(Debug, Drop, Error)]
pub enum LineFault {
    /// The line is neither empty nor an event.
    #[error("the line is no event")]
    NoEvent,
    /// A growth of memory was refused.
    #[error("out of memory")]
    Memory,
}

impl From<LexFault> for LineFault {
    ghost use Rattle.std.specs.Prelude.{◌≡◌};
    ghost use Rattle.script_lang.specs.code.Lines.{fault_of_cutting};

    ghost from_gives = { λ fault made. made ≡ fault_of_cutting fault };

    fn from(fault: LexFault) -> LineFault {
        match fault {
            LexFault::BadByte => LineFault::NoEvent,
            LexFault::Memory => LineFault::Memory,
        }
    }
}

impl From<ParseFault> for LineFault {
    ghost use Rattle.std.specs.Prelude.{◌≡◌};
    ghost use Rattle.script_lang.specs.code.Lines.{fault_of_parsing};

    ghost from_gives = { λ fault made. made ≡ fault_of_parsing fault };

    fn from(fault: ParseFault) -> LineFault {
        match fault {
            ParseFault::Syntax => LineFault::NoEvent,
            ParseFault::Memory => LineFault::Memory,
        }
    }
}
