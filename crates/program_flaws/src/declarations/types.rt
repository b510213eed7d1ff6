//! Types that aren't there, and references where only values may stand, in words.

use crate::declarations::declarations::DeclarationRef;
use crate::declarations::finding::{DeclarationFlaw, found};
use crate::declarations::sentence::SentencePiece;
use crate::declarations::words::ReportedOffence;
use basic_types::{Name, QType, is_value_name};
use class_outlines::{Unfit, names_before_parameter};
use std::alloc::AllocError;

const NO_FRACTIONS: &str = "there are no fractions: write `int`";

const A_TEXT: &str = "a text is a `QString`";

const A_NUMBER: &str = "a number is an `int`";

/// Types that C++ or Qt has, and what to write in place of each.
const FOREIGN_KINDS: &[(&[u8], &str)] = &[
    (b"double", NO_FRACTIONS),
    (b"float", NO_FRACTIONS),
    (b"qreal", NO_FRACTIONS),
    (b"string", A_TEXT),
    (b"char", A_TEXT),
    (b"QChar", A_TEXT),
    (b"QByteArray", A_TEXT),
    (b"long", A_NUMBER),
    (b"short", A_NUMBER),
    (b"unsigned", A_NUMBER),
    (b"uint", A_NUMBER),
    (b"qint64", A_NUMBER),
    (b"void", "a signal or slot without parameters has `()`"),
];

/// What is wrong with the type, or the property, of this name among the declaration's.
pub fn unfit_type(
    told: &ReportedOffence,
    unfit: &Unfit,
    name: usize,
) -> Result<DeclarationFlaw, AllocError> {
    match unfit {
        Unfit::Unknown => {
            let flaw = missing(told, name, " isn't a type", unknown_advice(told))?;
            Ok(flaw.or("a type is `int`, `bool`, `QString`, or a pointer to a class"))
        }
        Unfit::ClassAlone => {
            let advice = "put a `*` behind the class";
            let words = " is a class, and objects are told by pointers to them";
            missing(told, name, words, Some(advice))
        }
        Unfit::PointerToValue => {
            let advice = "leave the `*` out: values are copied";
            missing(told, name, " points to no class", Some(advice))
        }
        Unfit::PointerToNothing => {
            missing(told, name, " points to no class that is declared", None)
        }
        Unfit::Taken(kind) => {
            let words = "a native takes no references, and this parameter is a ";
            found(
                told.alloc,
                &[SentencePiece::Words(words), SentencePiece::Type(kind)],
                None,
            )
        }
        Unfit::Emitted(sig, kind) => {
            let pieces = [
                SentencePiece::Words("a native emits no references, and "),
                SentencePiece::Sig(sig),
                SentencePiece::Words(" has a "),
                SentencePiece::Type(kind),
            ];
            found(told.alloc, &pieces, None)
        }
        Unfit::Affected(kind) => {
            reference(told, "a native reads and sets no references, and ", kind)
        }
        Unfit::Bound(kind) => reference(told, "a binding takes no references, and ", kind),
    }
}

/// That the property of the name is a reference.
fn reference<'a>(
    told: &ReportedOffence<'a>,
    words: &'static str,
    kind: &'a QType,
) -> Result<DeclarationFlaw, AllocError> {
    let pieces = [
        SentencePiece::Words(words),
        SentencePiece::Name(told.name),
        SentencePiece::Words(" is a "),
        SentencePiece::Type(kind),
    ];
    found(told.alloc, &pieces, None)
}

/// This, of the type of this name among the declaration's.
fn missing(
    told: &ReportedOffence,
    name: usize,
    words: &'static str,
    advice: Option<&'static str>,
) -> Result<DeclarationFlaw, AllocError> {
    let kind = match kind_at(told.declared, name) {
        Some(kind) => SentencePiece::Type(kind),
        None => SentencePiece::Name(told.name),
    };
    found(told.alloc, &[kind, SentencePiece::Words(words)], advice)
}

/// The type of this name among the declaration's, as it is declared.
fn kind_at(declared: DeclarationRef<'_>, name: usize) -> Option<&QType> {
    if let DeclarationRef::Property(_, property) = declared {
        return Some(&property.kind);
    }
    let parameters = declared.parameters();
    for (place, parameter) in parameters.iter().enumerate() {
        if names_before_parameter(parameters, place) == name {
            return Some(&parameter.kind);
        }
    }
    None
}

/// What to write in place of a type that isn't there.
fn unknown_advice(told: &ReportedOffence) -> Option<&'static str> {
    match told.declared {
        DeclarationRef::Property(_, property) if is_value_name(property.name.bytes()) => Some(
            "the type comes first, and then the name: write `property int x;`",
        ),
        _ => kind_advice(told.name),
    }
}

/// What to write in place of a type that C++ or Qt has.
fn kind_advice(name: &Name) -> Option<&'static str> {
    for (kind, advice) in FOREIGN_KINDS {
        if name.bytes() == *kind {
            return Some(*advice);
        }
    }
    None
}
