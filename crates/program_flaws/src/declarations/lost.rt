//! What was taken out of a text to find what else is wrong with it, and what may be wrong only since.

use crate::declarations::declarations::DeclarationRef;
use crate::declarations::likely::add_names;
use crate::declarations::words::ReportedOffence;
use crate::named_classes::lineage;
use basic_types::Name;
use class_outlines::{Missing, Reason};
use std::alloc::{AllocError, Global};

/// What was taken out of a text to which something else may refer.
#[derive(Drop)]
pub struct Lost {
    alloc: Global,
    /// The names of the classes without their bases, and so without what they inherit.
    heirs: Vec<Vec<u8>>,
    /// The names that the declarations have which were taken out.
    names: Vec<Vec<u8>>,
}

impl Lost {
    /// Nothing yet.
    pub fn new(alloc: Global) -> Lost {
        Lost {
            alloc,
            heirs: Vec::new(alloc),
            names: Vec::new(alloc),
        }
    }

    /// Whether an offence for this reason may be there only since something was taken out.
    pub fn explains(&self, told: &ReportedOffence, reason: &Reason) -> Result<bool, AllocError> {
        let class = match reason {
            Reason::DuplicateClass(_)
            | Reason::DuplicateMember(_)
            | Reason::NoMember(Missing::Parameter(_) | Missing::Formal) => return Ok(false),
            Reason::NoMember(Missing::Object(kind)) if is_among(&self.names, &kind.name) => {
                return Ok(true);
            }
            Reason::NoMember(Missing::Property(class) | Missing::Method(class, _, _)) => {
                told.class_name(*class)
            }
            Reason::BadNotify(_) => told.declared.class_name(),
            _ => None,
        };
        if is_among(&self.names, told.name) {
            return Ok(true);
        }
        match class {
            Some(class) => self.is_heir(told, class),
            None => Ok(false),
        }
    }

    /// Whether the class of this name, or one above it, is without its base.
    fn is_heir(&self, told: &ReportedOffence, class: &Name) -> Result<bool, AllocError> {
        for above in lineage(self.alloc, told.program, class.bytes())? {
            if is_among(&self.heirs, &above.name) {
                return Ok(true);
            }
        }
        Ok(false)
    }

    /// Adds what is taken out for an offence for this reason.
    pub fn add(&mut self, told: &ReportedOffence, reason: &Reason) -> Result<(), AllocError> {
        let mut names = Vec::new(self.alloc);
        match (reason, told.declared) {
            (Reason::NoBase(_), DeclarationRef::Class(class)) => {
                let name = Vec::from_slice(self.alloc, class.name.bytes())?;
                self.heirs.push(name)?;
            }
            (Reason::NoMember(_) | Reason::BadNotify(_), _) => {}
            (_, DeclarationRef::Class(class)) => add_names(&mut names, class)?,
            (_, DeclarationRef::Property(_, property)) => names.push(property.name.bytes())?,
            (_, DeclarationRef::Signal(_, signal)) => names.push(signal.name.bytes())?,
            (_, DeclarationRef::Slot(_, slot)) => names.push(slot.name.bytes())?,
            _ => {}
        }
        for name in names {
            self.names.push(Vec::from_slice(self.alloc, name)?)?;
        }
        Ok(())
    }
}

/// Whether the name is one of these.
fn is_among(names: &Vec<Vec<u8>>, name: &Name) -> bool {
    names.iter().any(|other| other.as_slice() == name.bytes())
}
