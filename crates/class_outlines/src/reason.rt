//! How a declaration breaks a rule of loading.

ghost use Rattle.std.specs.Prelude.{◌≡◌};
ghost use Rattle.class_outlines.specs.Offences.{fault_of};

use crate::fault::MetaFault;
use basic_types::{QType, Sig};

/// How a declaration breaks a rule of loading. What it says of types and signatures is as declared; classes have their
/// numbers.
#[derive(Drop)]
pub enum Reason {
    /// The class may not have its name.
    DuplicateClass(ClassClash),
    /// The class's base doesn't stand before it, but here.
    NoBase(BasePlace),
    /// The name appears twice.
    DuplicateMember(Repeated),
    /// The name isn't declared.
    NoMember(Missing),
    /// The notify signature isn't that of a signal which may notify the property: what is there of its name.
    BadNotify(Near),
    /// The type isn't there, or is a reference where only values may stand.
    NoType(Unfit),
}

impl Reason {
    /// The refusal of programs with such a declaration.
    pub fn fault(&self) -> MetaFault
        ensures { result ≡ fault_of self.now }
    {
        match self {
            Reason::DuplicateClass(_) => MetaFault::DuplicateClass,
            Reason::NoBase(_) => MetaFault::NoBase,
            Reason::DuplicateMember(_) => MetaFault::DuplicateMember,
            Reason::NoMember(_) => MetaFault::NoMember,
            Reason::BadNotify(_) => MetaFault::BadNotify,
            Reason::NoType(_) => MetaFault::NoType,
        }
    }
}

/// Why a class may not have its name.
#[derive(Clone, Copy, Debug, PartialEq, Eq)]
pub enum ClassClash {
    /// No class may have it.
    Taken,
    /// A class before it has it.
    Repeated,
}

/// Where the base of a class stands that doesn't stand before it.
#[derive(Clone, Copy, Debug, PartialEq, Eq)]
pub enum BasePlace {
    /// It is the class itself.
    Itself,
    /// It comes after its class.
    Behind,
    /// It isn't declared.
    Nowhere,
}

/// What has a name that something of its sort before it has.
#[derive(Clone, Copy, Debug, PartialEq, Eq)]
pub enum Repeated {
    /// A property; whether the other one is inherited.
    Property(bool),
    /// A method, with as many parameters; whether the other one is inherited.
    Method(bool),
    /// A parameter.
    Parameter,
    /// A property that a native reads.
    Read,
    /// A signal that a native emits.
    Emitted,
    /// A property that a native sets.
    Set,
    /// A binding.
    Site,
    /// A formal source of a binding.
    Formal,
}

/// What is looked for by a name that isn't declared.
#[derive(Drop)]
pub enum Missing {
    /// A class.
    Class,
    /// A parameter of the slot; whether the slot's class has a property of this name.
    Parameter(bool),
    /// A formal source of the binding.
    Formal,
    /// A property of this class.
    Property(usize),
    /// An object, where what has the name is of this type: a value, or a pointer to no class.
    Object(QType),
    /// A method of this class, and what is there of its name.
    Method(usize, Sought, Near),
}

/// Which method of a class is looked for.
#[derive(Drop)]
pub enum Sought {
    /// A signal that a slot emits with so many arguments.
    Emitted(usize),
    /// A slot or native that is called with so many arguments.
    Called(usize),
    /// A method of this signature.
    Signed(End, Sig),
}

/// What a method that is named by its signature is to be.
#[derive(Clone, Copy, Debug, PartialEq, Eq)]
pub enum End {
    /// The signal at the sender's end of a connection.
    Sender,
    /// The method at the receiver's end of a connection.
    Receiver,
    /// A signal that a native may emit.
    Effect,
}

/// What a class has of a method's name.
#[derive(Clone, Copy, Debug, PartialEq, Eq)]
pub enum Near {
    /// No method of this name.
    Nothing,
    /// Methods of this name, but none with such parameters.
    Namesake,
    /// A slot or native.
    Slot,
    /// A signal.
    Signal,
    /// A signal that the runtime alone emits.
    RuntimeSignal,
}

/// Why a type may not stand where it does.
#[derive(Drop)]
pub enum Unfit {
    /// There is no such type.
    Unknown,
    /// It is a class's name without `*`.
    ClassAlone,
    /// It points to values.
    PointerToValue,
    /// It points to no class that is declared.
    PointerToNothing,
    /// A native takes a reference, of this type.
    Taken(QType),
    /// A native emits a reference, of this type, with this signal.
    Emitted(Sig, QType),
    /// A native reads or sets a property that is a reference, of this type.
    Affected(QType),
    /// A binding is for a reference, or reads one, of this type.
    Bound(QType),
}
