//! The members of a class that are imported, and why others are left out.

use crate::classes::catalogue::Catalogue;
use crate::classes::kinds::{LanguageType, Mapped, mapped_type};
use crate::classes::moc::{MocArgument, MocMethod, MocProperty};
use basic_types::{MOST_PARAMETERS, Word, is_name};
use std::alloc::{AllocError, Global};

/// Why a member is left out.
#[derive(Clone, Copy)]
pub enum LeftOut<'f> {
    /// The language has nothing for this type.
    Type(&'f str),
    /// A base has the member already.
    Inherited,
    /// The class has a method of this name with as many parameters.
    Overload,
    /// The name is a word of the language, or no name of it.
    Name,
    /// It has more parameters than a method may have.
    Parameters,
}

impl<'f> LeftOut<'f> {
    /// The parts of what a person is told of it.
    pub fn parts(self) -> [&'f str; 2] {
        match self {
            LeftOut::Type(kind) => ["there is nothing for ", kind],
            LeftOut::Inherited => ["a base has it", ""],
            LeftOut::Overload => ["another has its name and as many parameters", ""],
            LeftOut::Name => ["its name is a word of the language", ""],
            LeftOut::Parameters => ["it has more than 8 parameters", ""],
        }
    }
}

/// What a method is.
#[derive(Clone, Copy, PartialEq, Eq)]
pub enum MethodSort {
    Signal,
    /// A slot, or an invokable method.
    Slot,
    /// A slot that the class has here alone.
    AddedSlot,
}

/// A property that is imported.
#[derive(Clone, Copy)]
pub struct ImportedProperty<'f> {
    pub moc: &'f MocProperty,
    pub mapped: Mapped,
}

/// A method that is imported.
#[derive(Drop)]
pub struct ImportedMethod<'f> {
    pub moc: &'f MocMethod,
    pub sort: MethodSort,
    pub parameters: Vec<ImportedParameter<'f>>,
}

/// A parameter.
#[derive(Clone, Copy)]
pub struct ImportedParameter<'f> {
    pub moc: &'f MocArgument,
    pub mapped: Mapped,
}

/// The members of a class that are imported: its own alone.
#[derive(Drop)]
pub struct Members<'f> {
    pub properties: Vec<ImportedProperty<'f>>,
    pub methods: Vec<ImportedMethod<'f>>,
}

impl<'f> ImportedMethod<'f> {
    /// Whether the parameters are just one of this type.
    pub fn takes(&self, kind: LanguageType) -> bool {
        match self.parameters.as_slice() {
            [parameter] => parameter.mapped.kind == kind,
            _ => false,
        }
    }

    /// Whether it has this name and so many parameters.
    pub fn is_called(&self, name: &str, count: usize) -> bool {
        self.moc.name.as_str() == name && self.parameters.len() == count
    }

    /// Whether it is a signal.
    pub fn is_signal(&self) -> bool {
        self.sort == MethodSort::Signal
    }
}

/// Whether the text may be a member's or a parameter's name.
pub fn is_free(name: &str) -> bool {
    is_name(name.as_bytes()) && Word::of(name.as_bytes()).is_none()
}

/// The property of a class, or why it is left out where its type or its name is the reason.
pub fn property_of<'f>(
    catalogue: &Catalogue<'_>,
    class: usize,
    moc: &'f MocProperty,
) -> Result<ImportedProperty<'f>, LeftOut<'f>> {
    if !is_free(moc.name.as_str()) {
        return Err(LeftOut::Name);
    }
    match mapped_type(catalogue, class, moc.kind.as_str()) {
        Some(mapped) => Ok(ImportedProperty { moc, mapped }),
        None => Err(LeftOut::Type(moc.kind.as_str())),
    }
}

/// The parameters of a method, but for what makes a signal private; or the type that the language has nothing for.
pub fn parameters_of<'f>(
    alloc: Global,
    catalogue: &Catalogue<'_>,
    class: usize,
    moc: &'f MocMethod,
) -> Result<Result<Vec<ImportedParameter<'f>>, LeftOut<'f>>, AllocError> {
    if !is_free(moc.name.as_str()) {
        return Ok(Err(LeftOut::Name));
    }
    let mut parameters = Vec::new(alloc);
    for moc in moc.arguments.as_slice() {
        let kind = moc.kind.as_str();
        if kind == "QPrivateSignal" {
            continue;
        }
        match mapped_type(catalogue, class, kind) {
            Some(mapped) => parameters.push(ImportedParameter { moc, mapped })?,
            None => return Ok(Err(LeftOut::Type(kind))),
        }
    }
    Ok(if parameters.len() > MOST_PARAMETERS {
        Err(LeftOut::Parameters)
    } else {
        Ok(parameters)
    })
}
