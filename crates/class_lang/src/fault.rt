ghost use Rattle.std.specs.Prelude.{◌≡◌};
ghost use Rattle.class_lang.specs.Reads.{number_of};

use texts::LexFault;
use thiserror::Error;
use token_reading::ParseFault;

/// Why a text is no program.
#[derive(Debug, Drop, Error)]
pub enum TextFault {
    /// More than 1,048,576 bytes, or more declarations than the limits allow.
    #[error("the program is too large")]
    TooLarge,
    /// A byte begins no token, or a text literal isn't closed in its line.
    #[error("a byte begins no token")]
    BadByte,
    /// More than 32 brackets are open, or more than 200 tokens stand together.
    #[error("the text nests too deep")]
    TooDeepText,
    /// The tokens aren't in the grammar.
    #[error("the tokens aren't in the grammar")]
    Syntax,
    /// A reference isn't const.
    #[error("a reference that isn't const")]
    BadType,
    /// A signature has more than 8 parameters.
    #[error("more than 8 parameters")]
    TooMany,
    /// A growth of memory was refused.
    #[error("out of memory")]
    Memory,
}

impl From<LexFault> for TextFault {
    ghost use Rattle.std.specs.Prelude.{◌≡◌};
    ghost use Rattle.class_lang.specs.code.Faults.{fault_of_cutting};

    ghost from_gives = { λ fault made. made ≡ fault_of_cutting fault };

    fn from(fault: LexFault) -> TextFault {
        match fault {
            LexFault::BadByte => TextFault::BadByte,
            LexFault::Memory => TextFault::Memory,
        }
    }
}

impl From<ParseFault> for TextFault {
    ghost use Rattle.std.specs.Prelude.{◌≡◌};
    ghost use Rattle.class_lang.specs.code.Faults.{fault_of_parsing};

    ghost from_gives = { λ fault made. made ≡ fault_of_parsing fault };

    fn from(fault: ParseFault) -> TextFault {
        match fault {
            ParseFault::Syntax => TextFault::Syntax,
            ParseFault::Memory => TextFault::Memory,
        }
    }
}

impl TextFault {
    /// The refusal's number; running out of memory has none.
    pub fn number(&self) -> Option<u8>
        ensures { result ≡ number_of self.now }
    {
        match self {
            TextFault::TooLarge => Some(7),
            TextFault::BadByte => Some(4),
            TextFault::TooDeepText => Some(6),
            TextFault::Syntax => Some(5),
            TextFault::BadType => Some(2),
            TextFault::TooMany => Some(3),
            TextFault::Memory => None,
        }
    }
}
