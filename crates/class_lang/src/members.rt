//! The members of a class.

ghost use Rattle.std.specs.Prelude.{◌≡◌, ◌<◌, ◌≤◌, [], ◌∷◌, length, OnOk};
ghost use Rattle.token_reading.specs.code.Reading.{Reads, EndsAnywhere};
ghost use Rattle.class_lang.specs.code.Members.{ReadsInitial, ReadsNotify, ReadsProperty, with_members};
ghost use Rattle.class_lang.specs.Members.{spell_signal, tree_of_signal, spell_slot, tree_of_slot, spell_member, tree_of_member};

use crate::natives::native;
use crate::parameters::{SignalParameterPart, SlotParameterPart};
use basic_types::Sig;
use slot_lang::block;
use std::alloc::AllocError;
use syntax_trees::{Class, Literal, Property, Signal, Slot, SlotWork};
use texts::{Symbol, Word};
use token_reading::{Cursor, Landmark, ParseFault, list};

/// A member of a class.
#[derive(Drop)]
pub enum ParsedMember {
    Property(Property),
    Signal(Signal),
    /// A slot or a native.
    Slot(Slot),
}

/// Adds a member to the class, after those of its sort.
pub fn add_member(class: &mut Class, member: ParsedMember) -> Result<(), AllocError>
    ensures { OnOk result (class.new ≡ with_members class.old (member ∷ [])) }
{
    match member {
        ParsedMember::Property(property) => class.properties.push(property),
        ParsedMember::Signal(signal) => class.signals.push(signal),
        ParsedMember::Slot(slot) => class.slots.push(slot),
    }
}

/// `["=" literal]`
fn initial(cursor: &mut Cursor) -> Result<Option<Literal>, ParseFault>
    ensures reads { ReadsInitial cursor.old result cursor.new }
    ensures no_longer { OnOk result (length cursor.new ≤ length cursor.old) }
{
    if cursor.eat(Symbol::Assign) {
        let value = cursor.literal()?;
        Ok(Some(value))
    } else {
        Ok(None)
    }
}

/// `["notify" sig]`
fn notify(cursor: &mut Cursor) -> Result<Option<Sig>, ParseFault>
    ensures reads { ReadsNotify cursor.old result cursor.new }
    ensures no_longer { OnOk result (length cursor.new ≤ length cursor.old) }
{
    if cursor.eat_word(Word::Notify) {
        let sig = cursor.sig()?;
        Ok(Some(sig))
    } else {
        Ok(None)
    }
}

/// `type Name ["=" literal] ["notify" sig] ";"`
fn property(cursor: &mut Cursor) -> Result<Property, ParseFault>
    ensures reads { ReadsProperty cursor.old result cursor.new }
    ensures shorter { OnOk result (length cursor.new < length cursor.old) }
{
    let kind = cursor.kind()?;
    let name = cursor.name()?;
    let initial = initial(cursor)?;
    let notify = notify(cursor)?;
    cursor.expect(Symbol::Semicolon)?;
    Ok(Property {
        kind,
        name,
        initial,
        notify,
    })
}

/// `Name "(" [signal_parameter {"," signal_parameter}] ")" ";"`
fn signal(cursor: &mut Cursor) -> Result<Signal, ParseFault>
    ensures reads { Reads spell_signal tree_of_signal EndsAnywhere cursor.old result cursor.new }
    ensures shorter { OnOk result (length cursor.new < length cursor.old) }
{
    let name = cursor.name()?;
    let parameters = list::<SignalParameterPart>(cursor)?;
    cursor.expect(Symbol::Semicolon)?;
    Ok(Signal { name, parameters })
}

/// `Name "(" [slot_parameter {"," slot_parameter}] ")" block`
fn slot(cursor: &mut Cursor) -> Result<Slot, ParseFault>
    ensures reads { Reads spell_slot tree_of_slot EndsAnywhere cursor.old result cursor.new }
    ensures shorter { OnOk result (length cursor.new < length cursor.old) }
{
    let name = cursor.name()?;
    let parameters = list::<SlotParameterPart>(cursor)?;
    let body = block(cursor)?;
    Ok(Slot {
        name,
        parameters,
        work: SlotWork::Body(body),
    })
}

/// `"property" property | "signal" signal | "slot" slot | "native" native`
pub fn next_member(cursor: &mut Cursor) -> Result<ParsedMember, ParseFault>
    ensures reads { Reads spell_member tree_of_member EndsAnywhere cursor.old result cursor.new }
    ensures shorter { OnOk result (length cursor.new < length cursor.old) }
{
    if cursor.eat_opening(Landmark::Member, Word::Property) {
        Ok(ParsedMember::Property(property(cursor)?))
    } else if cursor.eat_opening(Landmark::Member, Word::Signal) {
        Ok(ParsedMember::Signal(signal(cursor)?))
    } else if cursor.eat_opening(Landmark::Member, Word::Slot) {
        Ok(ParsedMember::Slot(slot(cursor)?))
    } else if cursor.eat_opening(Landmark::Member, Word::Native) {
        Ok(ParsedMember::Slot(native(cursor)?))
    } else {
        Err(ParseFault::Syntax)
    }
}
