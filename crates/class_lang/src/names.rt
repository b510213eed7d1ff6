//! Whether the names that a program declares are as short as they have to be.

ghost use Rattle.std.specs.Prelude.{◌↔◌, IsTrue, IfSome};
ghost use Rattle.class_lang.specs.Names.{IsShortName, HaveShortNames, SignalHasShortNames, SlotHasShortNames, ClassHasShortNames, SiteHasShortNames, HasShortNames};

use basic_types::Name;
use syntax_trees::{Class, Parameter, Program, Signal, Site, Slot};

/// Whether the name has at most so many bytes.
fn is_short(name: &Name, most: usize) -> bool
    ensures { IsTrue result ↔ IsShortName most name.now }
{
    name.bytes().len() <= most
}

/// Whether the parameter has no longer name, or none.
fn is_shortly_named(parameter: &Parameter, most: usize) -> bool
    ensures { IsTrue result ↔ IfSome parameter.now.name (IsShortName most) }
{
    match &parameter.name {
        Some(name) => is_short(name, most),
        None => true,
    }
}

/// Whether no parameter has a longer name.
fn have_short_names(parameters: &[Parameter], most: usize) -> bool
    ensures { IsTrue result ↔ HaveShortNames most parameters.now }
{
    parameters
        .iter()
        .all(|parameter| is_shortly_named(parameter, most))
}

fn signal_has_short_names(signal: &Signal, most: usize) -> bool
    ensures { IsTrue result ↔ SignalHasShortNames most signal.now }
{
    is_short(&signal.name, most) && have_short_names(signal.parameters.as_slice(), most)
}

fn slot_has_short_names(slot: &Slot, most: usize) -> bool
    ensures { IsTrue result ↔ SlotHasShortNames most slot.now }
{
    is_short(&slot.name, most) && have_short_names(slot.parameters.as_slice(), most)
}

fn class_has_short_names(class: &Class, most: usize) -> bool
    ensures { IsTrue result ↔ ClassHasShortNames most class.now }
{
    is_short(&class.name, most)
        && class
            .properties
            .as_slice()
            .iter()
            .all(|property| is_short(&property.name, most))
        && class
            .signals
            .as_slice()
            .iter()
            .all(|signal| signal_has_short_names(signal, most))
        && class
            .slots
            .as_slice()
            .iter()
            .all(|slot| slot_has_short_names(slot, most))
}

fn site_has_short_names(site: &Site, most: usize) -> bool
    ensures { IsTrue result ↔ SiteHasShortNames most site.now }
{
    is_short(&site.name, most)
        && site
            .formals
            .as_slice()
            .iter()
            .all(|formal| is_short(&formal.name, most))
}

/// Whether no name that the program declares has more bytes than this: of its classes, their members and parameters, and of its
/// bindings and their formal sources.
pub fn has_short_names(program: &Program, most: usize) -> bool
    ensures { IsTrue result ↔ HasShortNames most program.now }
{
    program
        .classes
        .as_slice()
        .iter()
        .all(|class| class_has_short_names(class, most))
        && program
            .sites
            .as_slice()
            .iter()
            .all(|site| site_has_short_names(site, most))
}
