//! Why a text is no certificate.

ghost use Rattle.std.specs.Prelude.{◌≡◌};
ghost use Rattle.certificate_lang.specs.Reads.{number_of};

use std::alloc::AllocError;
use texts::LexFault;
use thiserror::Error;
use token_reading::ParseFault;

/// Why a text is no certificate.
#[derive(Debug, Drop, Error)]
pub enum CertificateFault {
    /// The text isn't in the grammar: refusal 77.
    #[error("the text is no certificate")]
    Format,
    /// A growth of memory was refused.
    #[error("out of memory")]
    Memory,
}

impl From<AllocError> for CertificateFault {
    ghost use Rattle.std.specs.Prelude.{◌≡◌};
    ghost use Rattle.certificate_lang.specs.declared.fault.CertificateFault.TheVariants.{Memory};

    ghost from_gives = { λ _ fault. fault ≡ Memory };

    fn from(_: AllocError) -> CertificateFault {
        CertificateFault::Memory
    }
}

impl From<LexFault> for CertificateFault {
    ghost use Rattle.std.specs.Prelude.{◌≡◌};
    ghost use Rattle.certificate_lang.specs.code.Reads.{fault_of_cutting};

    ghost from_gives = { λ fault made. made ≡ fault_of_cutting fault };

    fn from(fault: LexFault) -> CertificateFault {
        match fault {
            LexFault::BadByte => CertificateFault::Format,
            LexFault::Memory => CertificateFault::Memory,
        }
    }
}

impl From<ParseFault> for CertificateFault {
    ghost use Rattle.std.specs.Prelude.{◌≡◌};
    ghost use Rattle.certificate_lang.specs.code.Reads.{fault_of_parsing};

    ghost from_gives = { λ fault made. made ≡ fault_of_parsing fault };

    fn from(fault: ParseFault) -> CertificateFault {
        match fault {
            ParseFault::Syntax => CertificateFault::Format,
            ParseFault::Memory => CertificateFault::Memory,
        }
    }
}

impl CertificateFault {
    /// The refusal's number; running out of memory has none.
    pub fn number(&self) -> Option<u8>
        ensures { result ≡ number_of self.now }
    {
        match self {
            CertificateFault::Format => Some(77),
            CertificateFault::Memory => None,
        }
    }
}
