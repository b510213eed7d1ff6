//! Names that appear twice.

ghost use Rattle.std.specs.Prelude.{◌≡◌, ◌↔◌, IsTrue, Any};
ghost use Rattle.name_indexes.specs.Twice.{FindsRepeated};
ghost use Rattle.class_outlines.specs.Clashes.{IsTaken, DuplicateClass};
ghost use Rattle.class_outlines.specs.Conditions.{RepeatsInMethod, RepeatsInSlot, RepeatsName, AreOneParameter, RepeatsDeclared};
ghost use Rattle.name_indexes.specs.LookUps.{FindsOne};
ghost use Rattle.class_outlines.specs.Natives.{RepeatsAction, RepeatsEffect, RepeatsEffectIn};
ghost use Rattle.class_outlines.specs.Offences.{TellsBreach, TellsOffence, TellsOffenceIn};
ghost use Rattle.class_outlines.specs.DeclaredSites.{RepeatsSite, RepeatsFormal};
ghost use Rattle.class_outlines.specs.declared.fault.MetaFault.TheVariants as fault;
ghost use Rattle.class_outlines.specs.declared.offence.Declaration.TheVariants as declaration;
ghost use Rattle.class_outlines.specs.declared.reason.Reason.TheVariants as reason;
ghost use Rattle.syntax_trees.specs.declared.program.Class.{Class as AClass};
ghost use Rattle.syntax_trees.specs.declared.program.Signal.{Signal as ASignal};

use basic_types::{Name, Sig, is_value_name};
use class_outlines::{
    Breach, ClassClash, Declaration, Member, Offence, Reason, Repeated, names_before_parameter,
    names_before_work, names_of_sig,
};
use syntax_trees::{Class, EffectNames, Formal, Parameter, Program, Signal, Site, Slot, SlotWork};

/// What may not appear twice in a list.
trait Alike {
    ghost alike: { Self → Self → Type 0 };

    /// Whether both would be one.
    fn is_alike(&self, other: &Self) -> bool
        ensures { IsTrue result ↔ alike self.now other.now };
}

impl Alike for Class {
    ghost alike = { λ a b. a.name ≡ b.name };

    fn is_alike(&self, other: &Class) -> bool {
        self.name.is_same(&other.name)
    }
}

impl Alike for Parameter {
    ghost alike = { AreOneParameter };

    fn is_alike(&self, other: &Parameter) -> bool {
        match (&self.name, &other.name) {
            (Some(name), Some(others)) => name.is_same(others),
            _ => false,
        }
    }
}

impl Alike for Formal {
    ghost alike = { λ a b. a.name ≡ b.name };

    fn is_alike(&self, other: &Formal) -> bool {
        self.name.is_same(&other.name)
    }
}

impl Alike for Site {
    ghost alike = { λ a b. a.name ≡ b.name };

    fn is_alike(&self, other: &Site) -> bool {
        self.name.is_same(&other.name)
    }
}

impl Alike for Name {
    ghost alike = { λ a b. a ≡ b };

    fn is_alike(&self, other: &Name) -> bool {
        self.is_same(other)
    }
}

impl Alike for Sig {
    ghost alike = { λ a b. a.name ≡ b.name };

    fn is_alike(&self, other: &Sig) -> bool {
        self.name.is_same(&other.name)
    }
}

/// The place of the first item to which one before it is alike.
fn first_repeated<T: Alike>(items: &[T]) -> Option<usize>
    ensures { FindsRepeated T.alike items.now result }
{
    for (place, item) in items.iter().enumerate() {
        let (before, _) = items.split_at(place);
        if has_alike(before, item) {
            return Some(place);
        }
    }
    None
}

/// Whether one of the items is alike to this one.
fn has_alike<T: Alike>(items: &[T], one: &T) -> bool
    ensures { IsTrue result ↔ Any (λ item. T.alike item one.now) items.now }
{
    items.iter().any(|item| item.is_alike(one))
}

/// The first class whose name no class may have, or which another one before it has.
pub fn duplicate_class(program: &Program) -> Option<Offence>
    ensures { TellsOffence program.now fault.DuplicateClass (DuplicateClass program.now) result }
{
    let classes = program.classes.as_slice();
    if let Some(place) = first_taken(classes) {
        return Some(class_clash(place, ClassClash::Taken));
    }
    match first_repeated(classes) {
        Some(place) => Some(class_clash(place, ClassClash::Repeated)),
        None => None,
    }
}

/// That the class of this place may not have its name.
fn class_clash(place: usize, clash: ClassClash) -> Offence
    ensures { result ≡ record { declaration = declaration.Class place; name = 0; reason = reason.DuplicateClass clash } }
{
    Offence {
        declaration: Declaration::Class(place),
        name: 0,
        reason: Reason::DuplicateClass(clash),
    }
}

/// The place of the first class with a name that none may have.
fn first_taken(classes: &[Class]) -> Option<usize>
    ensures { FindsOne (λ (class : AClass). IsTaken class.name) classes.now result }
{
    for (place, class) in classes.iter().enumerate() {
        if is_taken(&class.name) {
            return Some(place);
        }
    }
    None
}

/// Whether no class may have this name.
fn is_taken(name: &Name) -> bool
    ensures { IsTrue result ↔ IsTaken name.now }
{
    let bytes = name.bytes();
    bytes == b"QObject".as_slice() || is_value_name(bytes)
}

/// The first method with two parameters of one name, or native with a name that appears twice in one of its lists; or
/// else the first binding site with the name of another one, or with two formal sources of one name.
pub fn repeated_name(program: &Program) -> Option<Offence>
    ensures { TellsOffence program.now fault.DuplicateMember (RepeatsDeclared program.now) result }
{
    match repeated_in_classes(program) {
        Some(offence) => Some(offence),
        None => repeated_in_sites(program),
    }
}

/// A parameter that appears twice in a method of a class, or a name in a list of a native.
fn repeated_in_classes(program: &Program) -> Option<Offence>
    ensures { TellsOffence program.now fault.DuplicateMember (Any RepeatsInMethod program.now.classes) result }
{
    for (number, class) in program.classes.as_slice().iter().enumerate() {
        if let Some(offence) = repeated_in_class(number, class) {
            return Some(offence);
        }
    }
    None
}

/// The same in the class, which has this number.
fn repeated_in_class(number: usize, class: &Class) -> Option<Offence>
    ensures { TellsOffenceIn number class.now fault.DuplicateMember (RepeatsInMethod class.now) result }
{
    match repeated_in_signals(number, class) {
        Some(offence) => Some(offence),
        None => repeated_in_slots(number, class),
    }
}

/// A parameter that appears twice in a signal.
fn repeated_in_signals(number: usize, class: &Class) -> Option<Offence>
    ensures { TellsOffenceIn number class.now fault.DuplicateMember
        (Any (λ (signal : ASignal). RepeatsName signal.parameters) class.now.signals) result }
{
    for (place, signal) in class.signals.as_slice().iter().enumerate() {
        if let Some(breach) = repeated_parameter(signal.parameters.as_slice()) {
            return Some(breach.of(Declaration::Member(number, Member::Signal(place))));
        }
    }
    None
}

/// A parameter that appears twice in a slot or native, or a name in a list of a native.
fn repeated_in_slots(number: usize, class: &Class) -> Option<Offence>
    ensures { TellsOffenceIn number class.now fault.DuplicateMember (Any RepeatsInSlot class.now.slots) result }
{
    for (place, slot) in class.slots.as_slice().iter().enumerate() {
        if let Some(breach) = repeated_in_slot(slot) {
            return Some(breach.of(Declaration::Member(number, Member::Slot(place))));
        }
    }
    None
}

/// That this appears twice, by the name of this number.
fn twice(name: usize, what: Repeated) -> Breach
    ensures { result ≡ record { name = name; reason = reason.DuplicateMember what } }
{
    Breach {
        name,
        reason: Reason::DuplicateMember(what),
    }
}

/// A parameter whose name one before it has.
fn repeated_parameter(parameters: &[Parameter]) -> Option<Breach>
    ensures { TellsBreach fault.DuplicateMember (RepeatsName parameters.now) result }
{
    match first_repeated(parameters) {
        Some(place) => {
            let name = names_before_parameter(parameters, place).saturating_add(1);
            Some(twice(name, Repeated::Parameter))
        }
        None => None,
    }
}

/// A parameter that appears twice in the slot or native, or a name in a list of the native.
fn repeated_in_slot(slot: &Slot) -> Option<Breach>
    ensures { TellsBreach fault.DuplicateMember (RepeatsInSlot slot.now) result }
{
    let parameters = slot.parameters.as_slice();
    match repeated_parameter(parameters) {
        Some(breach) => Some(breach),
        None => repeated_effect_in(names_before_work(parameters), &slot.work),
    }
}

/// A name that appears twice in a list of what is a native. The names of its lists begin with this number.
fn repeated_effect_in(first: usize, work: &SlotWork) -> Option<Breach>
    ensures { TellsBreach fault.DuplicateMember (RepeatsEffectIn work.now) result }
{
    match work {
        SlotWork::Body(_) => None,
        SlotWork::Native(effects) => repeated_effect(first, effects),
    }
}

/// A property that appears twice among those that the native reads or sets, or a signal's name among those that it
/// emits.
fn repeated_effect(first: usize, effects: &EffectNames) -> Option<Breach>
    ensures { TellsBreach fault.DuplicateMember (RepeatsEffect effects.now) result }
{
    let reads = effects.reads.as_slice();
    match first_repeated(reads) {
        Some(place) => Some(twice(first.saturating_add(place), Repeated::Read)),
        None => repeated_action(first.saturating_add(reads.len()), effects),
    }
}

/// A property that appears twice among those that the native sets, or a signal's name among those that it emits.
fn repeated_action(first: usize, effects: &EffectNames) -> Option<Breach>
    ensures { TellsBreach fault.DuplicateMember (RepeatsAction effects.now) result }
{
    let emits = effects.emits.as_slice();
    if let Some(place) = first_repeated(emits) {
        let (before, _) = emits.split_at(place);
        return Some(twice(names_behind(first, before), Repeated::Emitted));
    }
    match first_repeated(effects.sets.as_slice()) {
        Some(place) => {
            let name = names_behind(first, emits).saturating_add(place);
            Some(twice(name, Repeated::Set))
        }
        None => None,
    }
}

/// How many names there are with those of these signatures, where there were so many before them.
fn names_behind(before: usize, sigs: &[Sig]) -> usize {
    let mut names = before;
    for sig in sigs {
        names = names.saturating_add(names_of_sig(sig));
    }
    names
}

/// A binding site with the name of one before it, or with a formal source that appears twice.
fn repeated_in_sites(program: &Program) -> Option<Offence>
    ensures { TellsOffence program.now fault.DuplicateMember (RepeatsSite program.now.sites) result }
{
    match first_repeated(program.sites.as_slice()) {
        Some(place) => Some(twice(0, Repeated::Site).of(Declaration::Site(place))),
        None => repeated_in_formals(program),
    }
}

/// A formal source that appears twice in a binding site.
fn repeated_in_formals(program: &Program) -> Option<Offence>
    ensures { TellsOffence program.now fault.DuplicateMember (Any RepeatsFormal program.now.sites) result }
{
    for (place, site) in program.sites.as_slice().iter().enumerate() {
        if let Some(breach) = repeated_formal(site) {
            return Some(breach.of(Declaration::Site(place)));
        }
    }
    None
}

/// A formal source that appears twice in the site.
fn repeated_formal(site: &Site) -> Option<Breach>
    ensures { TellsBreach fault.DuplicateMember (RepeatsFormal site.now) result }
{
    match first_repeated(site.formals.as_slice()) {
        Some(place) => {
            let name = place.saturating_mul(2).saturating_add(4);
            Some(twice(name, Repeated::Formal))
        }
        None => None,
    }
}
