//! Names that aren't declared, in words.

use crate::declarations::finding::{DeclarationFlaw, found};
use crate::declarations::sentence::SentencePiece;
use crate::declarations::words::ReportedOffence;
use basic_types::{QType, Sig};
use class_outlines::{End, Missing, Near, Sought};
use diagnostics::literal_for;
use std::alloc::AllocError;

/// That the name isn't declared, of which this is looked for.
pub fn undeclared(
    told: &ReportedOffence,
    missing: &Missing,
) -> Result<DeclarationFlaw, AllocError> {
    match missing {
        Missing::Class => told.around("there is no class ", "", None),
        Missing::Parameter(is_property) => no_parameter(told, *is_property),
        Missing::Formal => told.around("", " is no formal source of the binding", None),
        Missing::Property(class) => {
            let pieces = [
                SentencePiece::Words("the class "),
                told.class(*class),
                SentencePiece::Words(" has no property "),
                SentencePiece::Name(told.name),
            ];
            found(told.alloc, &pieces, None)
        }
        Missing::Object(kind) => no_object(told, kind),
        Missing::Method(class, sought, near) => no_method(told, *class, sought, *near),
    }
}

fn no_parameter(told: &ReportedOffence, is_property: bool) -> Result<DeclarationFlaw, AllocError> {
    let advice = if is_property {
        Some("a property of the object itself is written `this.p`")
    } else {
        literal_for(told.name.bytes())
    };
    told.around("", " is no parameter of the slot", advice)
}

/// That what has the name, and is of this type, is no object.
fn no_object<'a>(
    told: &ReportedOffence<'a>,
    kind: &'a QType,
) -> Result<DeclarationFlaw, AllocError> {
    if kind.pointer {
        let pieces = [
            SentencePiece::Name(told.name),
            SentencePiece::Words(" is a "),
            SentencePiece::Type(kind),
            SentencePiece::Words(", and there is no class of this name"),
        ];
        return found(told.alloc, &pieces, None);
    }
    let pieces = [
        SentencePiece::Words("an object is wanted, and "),
        SentencePiece::Name(told.name),
        SentencePiece::Words(" is of the type "),
        SentencePiece::Type(kind),
    ];
    found(told.alloc, &pieces, None)
}

fn no_method(
    told: &ReportedOffence,
    class: usize,
    sought: &Sought,
    near: Near,
) -> Result<DeclarationFlaw, AllocError> {
    match sought {
        Sought::Emitted(count) => {
            no_call(told, class, " has no signal ", *count, emit_advice(near))
        }
        Sought::Called(count) => no_call(told, class, " has no slot ", *count, call_advice(near)),
        Sought::Signed(end, sig) => no_signed(told, class, *end, sig, near),
    }
}

fn no_call(
    told: &ReportedOffence,
    class: usize,
    words: &'static str,
    count: usize,
    advice: Option<&'static str>,
) -> Result<DeclarationFlaw, AllocError> {
    let pieces = [
        SentencePiece::Words("the class "),
        told.class(class),
        SentencePiece::Words(words),
        SentencePiece::Name(told.name),
        SentencePiece::Words(" with "),
        SentencePiece::Parameters(count),
    ];
    found(told.alloc, &pieces, advice)
}

/// What to write in place of an `emit`, where this is there of the name.
fn emit_advice(near: Near) -> Option<&'static str> {
    match near {
        Near::Slot => Some("this is a slot: write `call this.f(..);`"),
        other => namesake_advice(other, OTHER_COUNT),
    }
}

/// What to write in place of a `call`, where this is there of the name.
fn call_advice(near: Near) -> Option<&'static str> {
    match near {
        Near::Signal => Some("this is a signal: write `emit s(..);` in a slot of its class"),
        other => namesake_advice(other, OTHER_COUNT),
    }
}

/// What a method of the name is where it has other parameters than it is given.
const OTHER_COUNT: &str = "a method of this name is declared with another number of parameters";

/// What is there of the name that can't be meant: a signal of the runtime, or a method of which these words tell.
fn namesake_advice(near: Near, namesake: &'static str) -> Option<&'static str> {
    match near {
        Near::RuntimeSignal => Some("this is a signal that the runtime alone emits"),
        Near::Namesake => Some(namesake),
        Near::Signal | Near::Slot | Near::Nothing => None,
    }
}

fn no_signed<'a>(
    told: &ReportedOffence<'a>,
    class: usize,
    end: End,
    sig: &'a Sig,
    near: Near,
) -> Result<DeclarationFlaw, AllocError> {
    let (words, behind) = match (end, near) {
        (End::Sender, Near::Slot) => return something_else(told, sig, " is a slot, and no signal"),
        (End::Receiver, Near::RuntimeSignal) => {
            return something_else(told, sig, " is a signal that the runtime alone emits");
        }
        (End::Sender, _) => (" has no signal ", ""),
        (End::Receiver, _) => (" has no slot or signal ", ""),
        (End::Effect, _) => (" has no signal ", " that it may emit"),
    };
    let advice = match near {
        Near::Slot => Some("this is a slot"),
        other => namesake_advice(other, "a method of this name is declared with other types"),
    };
    let pieces = [
        SentencePiece::Words("the class "),
        told.class(class),
        SentencePiece::Words(words),
        SentencePiece::Sig(sig),
        SentencePiece::Words(behind),
    ];
    found(told.alloc, &pieces, advice)
}

/// That the signature is something else's.
fn something_else<'a>(
    told: &ReportedOffence<'a>,
    sig: &'a Sig,
    words: &'static str,
) -> Result<DeclarationFlaw, AllocError> {
    found(
        told.alloc,
        &[SentencePiece::Sig(sig), SentencePiece::Words(words)],
        None,
    )
}
