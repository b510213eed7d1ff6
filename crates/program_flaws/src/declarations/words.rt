//! What breaks a rule of loading, in words.

use crate::declarations::declarations::{DeclarationRef, declared_at};
use crate::declarations::finding::{DeclarationFlaw, found};
use crate::declarations::sentence::SentencePiece;
use crate::declarations::types::unfit_type;
use crate::declarations::undeclared::undeclared;
use crate::places::Part;
use crate::source::ReadProgram;
use basic_types::{Name, Sig};
use class_outlines::{BasePlace, ClassClash, Declaration, Near, Offence, Reason, Repeated};
use diagnostics::Flaw;
use std::alloc::{AllocError, Global};
use syntax_trees::{Program, Property};

/// An offence, as it is reported.
#[derive(Clone, Copy)]
pub struct ReportedOffence<'a> {
    pub alloc: Global,
    pub program: &'a Program,
    /// The declaration.
    pub declared: DeclarationRef<'a>,
    /// Where it stands.
    pub part: Part,
    /// The name that is wrong.
    pub name: &'a Name,
    /// Which token it is.
    pub token: usize,
    /// Its first byte in the text, counted from 0.
    at: usize,
}

impl<'a> ReportedOffence<'a> {
    /// An offence of the declaration, about its name of this number.
    pub fn of(
        alloc: Global,
        read: &'a ReadProgram,
        declaration: Declaration,
        number: usize,
    ) -> Option<ReportedOffence<'a>> {
        let part = read.places.declared(declaration)?;
        let (token, name) = read.places.name(part, number)?;
        Some(ReportedOffence {
            alloc,
            program: &read.program,
            declared: declared_at(&read.program, declaration)?,
            part,
            name,
            token,
            at: read.places.token(token)?.at,
        })
    }

    /// What is wrong, in words.
    pub fn finding(&self, offence: &Offence) -> Result<DeclarationFlaw, AllocError> {
        match &offence.reason {
            Reason::DuplicateClass(clash) => self.class_clash(*clash),
            Reason::NoBase(place) => self.base(*place),
            Reason::DuplicateMember(repeated) => self.repeated(*repeated),
            Reason::NoMember(missing) => undeclared(self, missing),
            Reason::BadNotify(near) => self.notifier(*near),
            Reason::NoType(unfit) => unfit_type(self, unfit, offence.name),
        }
    }

    /// The flaw with this sentence, behind which declaration it is of.
    pub fn flaw(&self, sentence: &str, advice: Option<String>) -> Result<Flaw, AllocError> {
        let sentence = self.headed(sentence)?;
        Ok(Flaw {
            at: self.at,
            sentence,
            advice,
        })
    }

    /// This sentence, behind which declaration it is of.
    fn headed(&self, sentence: &str) -> Result<String, AllocError> {
        let mut text = String::new(self.alloc);
        self.push_headed(&mut text, sentence)?;
        Ok(text)
    }

    fn push_headed(&self, text: &mut String, sentence: &str) -> Result<(), AllocError> {
        self.declared.push_heading(text, self.alloc)?;
        text.push_str(": ")?;
        text.push_str(sentence)
    }

    fn class_clash(&self, clash: ClassClash) -> Result<DeclarationFlaw, AllocError> {
        match clash {
            ClassClash::Taken => {
                let advice = "`QObject`, `int`, `bool` and `QString` are there already";
                self.words("no class may have this name", Some(advice))
            }
            ClassClash::Repeated => self.words("a class before it has this name", None),
        }
    }

    fn base(&self, place: BasePlace) -> Result<DeclarationFlaw, AllocError> {
        let (words, advice) = match place {
            BasePlace::Itself => (" is the class itself", None),
            BasePlace::Behind => (" stands behind it", Some("put the base before the class")),
            BasePlace::Nowhere => (" isn't declared", None),
        };
        self.around("its base ", words, advice)
    }

    fn repeated(&self, what: Repeated) -> Result<DeclarationFlaw, AllocError> {
        match what {
            Repeated::Property(false) => {
                self.words("another property of the class has this name", None)
            }
            Repeated::Property(true) => {
                self.words("a base of the class has a property of this name", None)
            }
            Repeated::Method(inherited) => self.method(inherited),
            Repeated::Parameter => self.around("two parameters are named ", "", None),
            Repeated::Read => self.around("`reads` has ", " twice", None),
            Repeated::Emitted => self.around("`emits` has ", " twice", None),
            Repeated::Set => self.around("`sets` has ", " twice", None),
            Repeated::Site => self.words("a binding before it has this name", None),
            Repeated::Formal => self.around("two formal sources are named ", "", None),
        }
    }

    fn method(&self, inherited: bool) -> Result<DeclarationFlaw, AllocError> {
        let (words, advice) = if inherited {
            (
                "a base of the class has a method named ",
                "nothing is overridden: give this one another name",
            )
        } else {
            (
                "two methods are named ",
                "methods of one name differ in how many parameters they have, and not in their types alone",
            )
        };
        let pieces = [
            SentencePiece::Words(words),
            SentencePiece::Name(self.name),
            SentencePiece::Words(" with "),
            SentencePiece::Parameters(self.declared.parameters().len()),
        ];
        found(self.alloc, &pieces, Some(advice))
    }

    fn notifier(&self, near: Near) -> Result<DeclarationFlaw, AllocError> {
        match self.declared {
            DeclarationRef::Property(_, property) => match &property.notify {
                Some(sig) => bad_notifier(self.alloc, property, sig, near),
                None => self.words("it has no notify signal", None),
            },
            _ => self.words("it is no property", None),
        }
    }

    /// These words alone.
    pub fn words(
        &self,
        words: &'static str,
        advice: Option<&'static str>,
    ) -> Result<DeclarationFlaw, AllocError> {
        found(self.alloc, &[SentencePiece::Words(words)], advice)
    }

    /// The name between these words.
    pub fn around(
        &self,
        before: &'static str,
        behind: &'static str,
        advice: Option<&'static str>,
    ) -> Result<DeclarationFlaw, AllocError> {
        let pieces = [
            SentencePiece::Words(before),
            SentencePiece::Name(self.name),
            SentencePiece::Words(behind),
        ];
        found(self.alloc, &pieces, advice)
    }

    /// The class of this number.
    pub fn class(&self, number: usize) -> SentencePiece<'a> {
        match self.class_name(number) {
            Some(name) => SentencePiece::Name(name),
            None => SentencePiece::Known(b"QObject"),
        }
    }

    /// The name of the class of this number; `None` for `QObject`.
    pub fn class_name(&self, number: usize) -> Option<&'a Name> {
        let place = number.checked_sub(1)?;
        Some(&self.program.classes.as_slice().get(place)?.name)
    }
}

/// That the signature isn't that of a signal which may notify the property, where this is there of its name.
fn bad_notifier<'a>(
    alloc: Global,
    property: &'a Property,
    sig: &'a Sig,
    near: Near,
) -> Result<DeclarationFlaw, AllocError> {
    let (words, advice) = match near {
        Near::Signal => return other_value(alloc, property, sig),
        Near::Slot => (" is a slot, and no signal", None),
        Near::RuntimeSignal => (
            " is a signal of `QObject`, which the runtime alone emits",
            None,
        ),
        Near::Namesake => (
            " isn't a signal of the class or its bases",
            Some(
                "behind `notify` stands the signal's signature, with just the types that it is declared with",
            ),
        ),
        Near::Nothing => (" isn't a signal of the class or its bases", None),
    };
    let pieces = [SentencePiece::Sig(sig), SentencePiece::Words(words)];
    let flaw = found(alloc, &pieces, advice)?;
    Ok(if near == Near::Nothing {
        flaw.or("declare the signal in the class, or leave `notify` out")
    } else {
        flaw
    })
}

/// A notify signal that takes something else than its property's value.
fn other_value<'a>(
    alloc: Global,
    property: &'a Property,
    sig: &'a Sig,
) -> Result<DeclarationFlaw, AllocError> {
    let pieces = [
        SentencePiece::Words("the property is of the type "),
        SentencePiece::Type(&property.kind),
        SentencePiece::Words(", and "),
        SentencePiece::Sig(sig),
        SentencePiece::Words(" takes something else"),
    ];
    let advice = "a notify signal has no parameter, or one of the property's type";
    found(alloc, &pieces, Some(advice))
}
