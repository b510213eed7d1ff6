//! Notify signals.

ghost use Rattle.std.specs.Prelude.{◌≡◌, ◌↔◌, ◌⊎◌, ℕ, List, [], ◌∷◌, IsTrue, Any};
ghost use Rattle.class_outlines.specs.Notifiers.{IsNotifiedBy, LacksNotifier, MayNotify, BadNotify};
ghost use Rattle.class_outlines.specs.Offences.{TellsBreach, TellsOffence, TellsOffenceIn};
ghost use Rattle.class_outlines.specs.Outlines.{Outlines};
ghost use Rattle.class_outlines.specs.declared.fault.MetaFault.TheVariants as fault;
ghost use Rattle.syntax_trees.specs.declared.program.Property.{Property as AProperty};

use basic_types::{QType, Sig};
use class_outlines::{Breach, Declaration, IndexedOutline, Member, Offence, Reason};
use meta_model::DELETE_LATER;
use syntax_trees::{Class, Program, Property};

/// The first property, in the order of the classes, whose notify signature isn't that of a signal which may notify it.
pub fn bad_notifier(program: &Program, outlines: &[IndexedOutline]) -> Option<Offence>
    requires { Outlines program.now.classes outlines.now }
    ensures { TellsOffence program.now fault.BadNotify (BadNotify outlines.now) result }
{
    for (number, class) in program.classes.as_slice().iter().enumerate() {
        let place = number + 1;
        let outline = &outlines[place];
        if let Some(offence) = bad_notifier_of(number, class, outline) {
            return Some(offence);
        }
    }
    None
}

/// The first such property that the class of this number declares.
fn bad_notifier_of(number: usize, class: &Class, outline: &IndexedOutline) -> Option<Offence>
    ensures { TellsOffenceIn number class.now fault.BadNotify
        (Any (λ (property : AProperty). LacksNotifier outline.now property property.notify) class.now.properties) result }
{
    for (place, property) in class.properties.as_slice().iter().enumerate() {
        if let Some(breach) = unfit_notifier(outline, property) {
            return Some(breach.of(Declaration::Member(number, Member::Property(place))));
        }
    }
    None
}

/// The property's notify signature, where it is such a one.
fn unfit_notifier(outline: &IndexedOutline, property: &Property) -> Option<Breach>
    ensures { TellsBreach fault.BadNotify (LacksNotifier outline.now property.now property.now.notify) result }
{
    let Some(sig) = &property.notify else {
        return None;
    };
    if is_notified_by(outline, property, sig) {
        None
    } else {
        Some(Breach {
            name: 2,
            reason: Reason::BadNotify(outline.near_signed(sig)),
        })
    }
}

/// Whether a signal of this signature may notify the property.
fn is_notified_by(outline: &IndexedOutline, property: &Property, sig: &Sig) -> bool
    ensures yes { IsTrue result → (m : ℕ) × IsNotifiedBy outline.now property.now sig.now m }
    ensures only { (m : ℕ) → IsNotifiedBy outline.now property.now sig.now m → IsTrue result }
{
    match outline.place_of_signal(sig) {
        Some(place) => carries(sig.types.as_slice(), &property.kind) && may_notify(place, property),
        None => false,
    }
}

/// Whether the types are none, or this one alone.
fn carries(types: &[QType], kind: &QType) -> bool
    ensures { IsTrue result ↔ ((types.now ≡ []) ⊎ (types.now ≡ kind.now ∷ [])) }
{
    match types {
        [] => true,
        [one] => one.is_same(kind),
        _ => false,
    }
}

/// Whether the signal isn't one of `QObject`'s, or notifies `QObject`'s property.
fn may_notify(signal: usize, property: &Property) -> bool
    ensures { IsTrue result ↔ MayNotify signal property.now }
{
    DELETE_LATER < signal || property.name.bytes() == b"objectName".as_slice()
}
