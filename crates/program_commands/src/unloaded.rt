//! A program that doesn't load.

ghost use Rattle.std.specs.Prelude.{◌≡◌, MatchOption};
ghost use Rattle.class_outlines.specs.FaultNumbers.{number_of};
ghost use Rattle.class_outlines.specs.Offences.{fault_of, fault_told};
ghost use Rattle.class_outlines.specs.declared.fault.MetaFault.TheVariants.{Memory};

use class_outlines::{LoadFault, Offence};
use meta_objects::MetaFault;
use std::error::Error;
use std::fmt;
use std::fmt::{Debug, Display, Formatter};
use std::marker::Model;

/// Why a program doesn't load, and which of its declarations leads to that. Contracts see the rule that it breaks, and the
/// declaration by its call.
#[derive(Drop)]
pub struct Unloaded {
    fault: LoadFault,
}

impl Model for Unloaded {
    ghost use Rattle.class_outlines.specs.declared.fault.MetaFault.{MetaFault};
    ghost use Rattle.class_outlines.specs.Offences.{fault_told};

    ghost Value = { MetaFault };

    ghost view = { λ unloaded. fault_told unloaded.fault };
}

impl Unloaded {
    /// What `meta_objects`' `load` answers.
    pub fn new(fault: LoadFault) -> Unloaded
        ensures { result ≡ fault_told fault }
    {
        Unloaded { fault }
    }

    /// The declaration that breaks the rule; none where memory was refused.
    pub fn offence(&self) -> Option<&Offence>
        ensures { MatchOption result (self.now ≡ Memory) (λ offence. fault_of offence.now.reason ≡ self.now) }
    {
        match &self.fault {
            LoadFault::Offence(offence) => Some(offence),
            LoadFault::Memory => None,
        }
    }

    /// The rule.
    pub fn fault(&self) -> MetaFault
        ensures { result ≡ self.now }
    {
        self.fault.fault()
    }

    /// The refusal's number; running out of memory has none.
    pub fn number(&self) -> Option<u8>
        ensures { result ≡ number_of self.now }
    {
        self.fault().number()
    }
}

/// The rule, for whoever looks for a mistake in a program that loads programs.
impl Debug for Unloaded {
    fn fmt<W: fmt::Write>(&self, f: &mut Formatter<W>) -> fmt::Result {
        Debug::fmt(&self.fault(), f)
    }
}

/// What the rule says.
impl Display for Unloaded {
    fn fmt<W: fmt::Write>(&self, f: &mut Formatter<W>) -> fmt::Result {
        Display::fmt(&self.fault(), f)
    }
}

impl Error for Unloaded {}
