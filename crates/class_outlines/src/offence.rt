//! Which declaration of a program breaks a rule of loading.

ghost use Rattle.std.specs.Prelude.{◌≡◌, Some};
ghost use Rattle.class_outlines.specs.FaultNumbers.{number_of};
ghost use Rattle.class_outlines.specs.Offences.{fault_of, offence_of, located, fault_told};

use crate::fault::MetaFault;
use crate::reason::Reason;
use std::alloc::AllocError;

/// A declaration of a program, by its place among those of its sort, from 0.
#[derive(Clone, Copy, Debug, PartialEq, Eq)]
pub enum Declaration {
    /// A class.
    Class(usize),
    /// A member of the class of this place.
    Member(usize, Member),
    /// A wire.
    Wire(usize),
    /// A declaration of owners.
    Owns(usize),
    /// A binding site.
    Site(usize),
}

/// A member that a class declares, by its place among those of its sort, from 0.
#[derive(Clone, Copy, Debug, PartialEq, Eq)]
pub enum Member {
    /// A property.
    Property(usize),
    /// A signal.
    Signal(usize),
    /// A slot or native.
    Slot(usize),
}

/// What of a declaration breaks a rule.
pub struct Breach {
    /// Which of the declaration's names it is about, counted from 0 in the order of the text.
    pub name: usize,
    /// What is wrong with it.
    pub reason: Reason,
}

impl Drop for Breach {
    fn drop(self) {
        let Breach { name: _, reason: _ } = self;
    }
}

impl Breach {
    /// The same, of this declaration.
    pub fn of(self, declaration: Declaration) -> Offence
        ensures { result ≡ offence_of declaration self }
    {
        let Breach { name, reason } = self;
        Offence {
            declaration,
            name,
            reason,
        }
    }
}

/// What of a program breaks a rule, and so refuses it.
pub struct Offence {
    /// The declaration.
    pub declaration: Declaration,
    /// Which of the declaration's names it is about, counted from 0 in the order of the text.
    pub name: usize,
    /// What is wrong with it.
    pub reason: Reason,
}

impl Drop for Offence {
    fn drop(self) {
        let Offence {
            declaration: _,
            name: _,
            reason: _,
        } = self;
    }
}

impl Offence {
    /// The refusal's number.
    pub fn number(&self) -> u8
        ensures { Some result ≡ number_of (fault_of self.now.reason) }
    {
        match &self.reason {
            Reason::DuplicateClass(_) => 10,
            Reason::NoBase(_) => 11,
            Reason::DuplicateMember(_) => 12,
            Reason::NoMember(_) => 13,
            Reason::BadNotify(_) => 14,
            Reason::NoType(_) => 15,
        }
    }
}

/// Why a part of a declaration isn't loaded.
#[derive(Drop)]
pub enum PartFault {
    /// It breaks a rule.
    Breach(Breach),
    /// A growth of memory was refused.
    Memory,
}

impl From<AllocError> for PartFault {
    ghost use Rattle.std.specs.Prelude.{◌≡◌};
    ghost use Rattle.class_outlines.specs.declared.offence.PartFault.TheVariants.{Memory};

    ghost from_gives = { λ _ fault. fault ≡ Memory };

    fn from(_: AllocError) -> PartFault {
        PartFault::Memory
    }
}

impl PartFault {
    /// The same, of a part of this declaration.
    pub fn of(self, declaration: Declaration) -> LoadFault
        ensures { result ≡ located declaration self }
    {
        match self {
            PartFault::Breach(breach) => LoadFault::Offence(breach.of(declaration)),
            PartFault::Memory => LoadFault::Memory,
        }
    }
}

/// Why a program isn't loaded.
#[derive(Drop)]
pub enum LoadFault {
    /// This breaks a rule.
    Offence(Offence),
    /// A growth of memory was refused.
    Memory,
}

impl From<AllocError> for LoadFault {
    ghost use Rattle.std.specs.Prelude.{◌≡◌};
    ghost use Rattle.class_outlines.specs.declared.offence.LoadFault.TheVariants.{Memory};

    ghost from_gives = { λ _ fault. fault ≡ Memory };

    fn from(_: AllocError) -> LoadFault {
        LoadFault::Memory
    }
}

impl LoadFault {
    /// The refusal that it is.
    pub fn fault(&self) -> MetaFault
        ensures { result ≡ fault_told self.now }
    {
        match self {
            LoadFault::Offence(offence) => offence.reason.fault(),
            LoadFault::Memory => MetaFault::Memory,
        }
    }
}
