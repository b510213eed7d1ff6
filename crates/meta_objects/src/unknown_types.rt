//! Types that aren't there.

ghost use Rattle.std.specs.Prelude.{Any};
ghost use Rattle.class_outlines.specs.Conditions.{LacksPropertyType, LacksAnyType};
ghost use Rattle.class_outlines.specs.DeclaredKinds.{LacksType};
ghost use Rattle.class_outlines.specs.Offences.{TellsBreach, TellsOffence, TellsOffenceIn};
ghost use Rattle.class_outlines.specs.Outlines.{Outlines, types_of};
ghost use Rattle.meta_objects.specs.code.OwnTypes.{DeclaresUnknown};
ghost use Rattle.class_outlines.specs.declared.fault.MetaFault.TheVariants as fault;
ghost use Rattle.syntax_trees.specs.declared.program.Signal.{Signal as ASignal};
ghost use Rattle.syntax_trees.specs.declared.program.Slot.{Slot as ASlot};

use basic_types::{QType, is_value_name};
use class_outlines::{
    Breach, ClassTable, Declaration, Member, Offence, Reason, Unfit, kind_of,
    names_before_parameter,
};
use syntax_trees::{Class, Parameter, Program};

/// The first property or method, in the order of the classes, whose type or one of whose parameters' isn't there.
pub fn unknown_type(program: &Program, outlines: &ClassTable) -> Option<Offence>
    requires { Outlines program.now.classes outlines.now }
    ensures { TellsOffence program.now fault.NoType (LacksAnyType outlines.now) result }
{
    for (number, class) in program.classes.as_slice().iter().enumerate() {
        if let Some(offence) = unknown_type_in(number, class, outlines) {
            return Some(offence);
        }
    }
    None
}

/// The first of those that the class of this number declares.
fn unknown_type_in(number: usize, class: &Class, outlines: &ClassTable) -> Option<Offence>
    ensures { TellsOffenceIn number class.now fault.NoType (DeclaresUnknown outlines.now class.now) result }
{
    if let Some(offence) = unknown_of_property(number, class, outlines) {
        return Some(offence);
    }
    match unknown_in_signals(number, class, outlines) {
        Some(offence) => Some(offence),
        None => unknown_in_slots(number, class, outlines),
    }
}

/// The first property whose type isn't there.
fn unknown_of_property(number: usize, class: &Class, outlines: &ClassTable) -> Option<Offence>
    ensures { TellsOffenceIn number class.now fault.NoType (Any (LacksPropertyType outlines.now) class.now.properties) result }
{
    for (place, property) in class.properties.as_slice().iter().enumerate() {
        if let Some(breach) = unknown(outlines, &property.kind, 0) {
            return Some(breach.of(Declaration::Member(number, Member::Property(place))));
        }
    }
    None
}

/// The first signal with a parameter whose type isn't there.
fn unknown_in_signals(number: usize, class: &Class, outlines: &ClassTable) -> Option<Offence>
    ensures { TellsOffenceIn number class.now fault.NoType
        (Any (λ (signal : ASignal). Any (LacksType outlines.now) (types_of signal.parameters)) class.now.signals) result }
{
    for (place, signal) in class.signals.as_slice().iter().enumerate() {
        if let Some(breach) = unknown_of_parameter(outlines, signal.parameters.as_slice()) {
            return Some(breach.of(Declaration::Member(number, Member::Signal(place))));
        }
    }
    None
}

/// The first slot or native with a parameter whose type isn't there.
fn unknown_in_slots(number: usize, class: &Class, outlines: &ClassTable) -> Option<Offence>
    ensures { TellsOffenceIn number class.now fault.NoType
        (Any (λ (slot : ASlot). Any (LacksType outlines.now) (types_of slot.parameters)) class.now.slots) result }
{
    for (place, slot) in class.slots.as_slice().iter().enumerate() {
        if let Some(breach) = unknown_of_parameter(outlines, slot.parameters.as_slice()) {
            return Some(breach.of(Declaration::Member(number, Member::Slot(place))));
        }
    }
    None
}

/// The first parameter whose type isn't there.
fn unknown_of_parameter(outlines: &ClassTable, parameters: &[Parameter]) -> Option<Breach>
    ensures { TellsBreach fault.NoType (Any (LacksType outlines.now) (types_of parameters.now)) result }
{
    for (place, parameter) in parameters.iter().enumerate() {
        let name = names_before_parameter(parameters, place);
        if let Some(breach) = unknown(outlines, &parameter.kind, name) {
            return Some(breach);
        }
    }
    None
}

/// The type of this name among the declaration's, where it isn't there.
fn unknown(outlines: &ClassTable, kind: &QType, name: usize) -> Option<Breach>
    ensures { TellsBreach fault.NoType (LacksType outlines.now kind.now) result }
{
    match kind_of(outlines, kind) {
        Some(_) => None,
        None => Some(Breach {
            name,
            reason: Reason::NoType(unfit_of(outlines, kind)),
        }),
    }
}

/// What is wrong with a type that isn't there.
fn unfit_of(outlines: &ClassTable, kind: &QType) -> Unfit {
    if kind.pointer {
        if is_value_name(kind.name.bytes()) {
            Unfit::PointerToValue
        } else {
            Unfit::PointerToNothing
        }
    } else if outlines.place_of(&kind.name).is_some() {
        Unfit::ClassAlone
    } else {
        Unfit::Unknown
    }
}
