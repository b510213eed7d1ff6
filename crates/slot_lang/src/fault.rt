//! Why tokens aren't a body.

ghost use Rattle.std.specs.Prelude.{◌≡◌};
ghost use Rattle.slot_lang.specs.Reads.{number_of};

use thiserror::Error;
use token_reading::ParseFault;

/// Why tokens aren't a slot's body.
#[derive(Debug, Drop, Error)]
pub enum BodyFault {
    /// The tokens aren't in the grammar.
    #[error("the tokens aren't in the grammar")]
    Syntax,
    /// A reference isn't const.
    #[error("a reference that isn't const")]
    BadType,
    /// A signature has more than 8 types.
    #[error("more than 8 parameters")]
    TooMany,
    /// A growth of memory was refused.
    #[error("out of memory")]
    Memory,
}

impl From<ParseFault> for BodyFault {
    ghost use Rattle.std.specs.Prelude.{◌≡◌};
    ghost use Rattle.slot_lang.specs.code.Faults.{fault_of_parsing};

    ghost from_gives = { λ fault made. made ≡ fault_of_parsing fault };

    fn from(fault: ParseFault) -> BodyFault {
        match fault {
            ParseFault::Syntax => BodyFault::Syntax,
            ParseFault::Memory => BodyFault::Memory,
        }
    }
}

impl BodyFault {
    /// The refusal's number; running out of memory has none.
    pub fn number(&self) -> Option<u8>
        ensures { result ≡ number_of self.now }
    {
        match self {
            BodyFault::Syntax => Some(5),
            BodyFault::BadType => Some(2),
            BodyFault::TooMany => Some(3),
            BodyFault::Memory => None,
        }
    }
}
