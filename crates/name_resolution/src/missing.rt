//! What is looked for where a name isn't declared.

ghost use Rattle.std.specs.Prelude.{◌≡◌, ◌⊎◌};
ghost use Rattle.class_outlines.specs.Offences.{fault_in};
ghost use Rattle.class_outlines.specs.declared.fault.MetaFault.TheVariants.{NoMember};
ghost use Rattle.class_outlines.specs.declared.offence.PartFault.TheVariants.{Memory};

use basic_types::{Name, Sig};
use class_outlines::{Breach, ClassTable, End, IndexedOutline, Missing, PartFault, Reason, Sought};

/// That the declaration's name of this number isn't declared.
pub fn undeclared(name: usize, missing: Missing) -> PartFault
    ensures { fault_in result ≡ NoMember }
{
    PartFault::Breach(Breach {
        name,
        reason: Reason::NoMember(missing),
    })
}

/// That the property isn't there whose name has this number, behind that of its class; or that the class isn't.
pub fn no_property(outlines: &ClassTable, class: &Name, name: usize) -> PartFault
    ensures { fault_in result ≡ NoMember }
{
    match outlines.place_of(class) {
        Some(number) => undeclared(name, Missing::Property(number)),
        None => undeclared(name.saturating_sub(1), Missing::Class),
    }
}

/// That the class of this number has no method that a statement may emit or call so, by the name of the first number.
pub fn no_call(
    name: usize,
    number: usize,
    class: &IndexedOutline,
    called: &Name,
    sought: Sought,
) -> PartFault
    ensures { fault_in result ≡ NoMember }
{
    let near = match &sought {
        Sought::Emitted(count) | Sought::Called(count) => class.near_call(called, *count),
        Sought::Signed(_, sig) => class.near_signed(sig),
    };
    undeclared(name, Missing::Method(number, sought, near))
}

/// That the method isn't there whose name has this number, behind that of its class; or that the class isn't.
pub fn no_end(outlines: &ClassTable, name: usize, class: &Name, end: End, sig: &Sig) -> PartFault
    ensures { (result ≡ Memory) ⊎ (fault_in result ≡ NoMember) }
{
    match outlines.find(class) {
        Some((number, outline)) => no_method(name, number, outline, end, sig),
        None => undeclared(name.saturating_sub(1), Missing::Class),
    }
}

/// That the class of this number has no such method, whose name has the first number.
pub fn no_method(
    name: usize,
    number: usize,
    class: &IndexedOutline,
    end: End,
    sig: &Sig,
) -> PartFault
    ensures { (result ≡ Memory) ⊎ (fault_in result ≡ NoMember) }
{
    let near = class.near_signed(sig);
    match sig.copy() {
        Ok(sig) => undeclared(
            name,
            Missing::Method(number, Sought::Signed(end, sig), near),
        ),
        Err(_) => PartFault::Memory,
    }
}
