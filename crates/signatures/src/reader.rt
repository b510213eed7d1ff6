//! From a text to its signature.

ghost use Rattle.std.specs.Prelude.{◌<◌, length, OnOk, IsTrue, ◌↔◌};
ghost use Rattle.signatures.specs.Laws.{AtMostEight, NormalFormsAreNormal, OneAnswer, OneNormalForm, TextsAreNormal};
ghost use Rattle.signatures.specs.Normalising.{Normalises};
ghost use Rattle.signatures.specs.code.Reading.{const_word, Eats, TakesName, TakesSeparator, TakesNamed, EndingAt, ReadsType, ReadsTypes};
ghost use Rattle.basic_types.specs.Signatures.{IsClosed};
ghost use Rattle.basic_types.specs.Tokens.{mark as mark_token};

use crate::fault::SigFault;
use crate::scanner::{Scanned, Scanner};
use basic_types::{ConstPlace, MOST_PARAMETERS, Mark, Name, QType, Sig, TypeEnding, Word, is_name};
use sqlite_items::Items;
use std::alloc::Global;

/// The normal form of a signature's text: `done( const  QString & )` is `done(QString)`. Blanks, which are space, tab,
/// carriage return and newline, may stand between any two words or marks.
///
/// Of several things that are wrong with a text the first of these is the answer:
/// - `BadName`: it isn't a name, `(`, a list without brackets, `)`, or has a byte that is no letter, no digit, no blank
///   and none of `_ ( ) , & *`. A reserved word is no name.
/// - `BadType`: a piece of the list isn't a type: a name, with at most one `const` before or after it, and nothing, `*`
///   or, with `const`, `&` behind it. A list of blanks alone has no pieces.
/// - `TooMany`: there are more than 8 parameters.
///
/// `Memory`, that a growth of memory was refused, can come at any point.
pub fn normalise(alloc: Global, text: &str) -> Result<Sig, SigFault>
    ensures { Normalises text.now result }
{
    let mut scanner = Scanner::new(text.as_bytes());
    let Some(name) = scanner.name() else {
        return Err(SigFault::BadName);
    };
    if !scanner.eat(Mark::Open) || !scanner.is_closed() {
        return Err(SigFault::BadName);
    }
    let types = scanner.types(alloc)?;
    if types.len() > MOST_PARAMETERS {
        return Err(SigFault::TooMany);
    }
    let name = Name::new(alloc, name)?;
    let sig = Sig::new(alloc, name, types)?;
    Ok(sig)
}

/// A text has at most one normal form, with at most 8 parameters, and at most one answer, unless memory runs out.
pub fn one_normal_form()
    ensures one { OneNormalForm }
    ensures few { AtMostEight }
    ensures answer { OneAnswer }
{}

/// The normal forms are the signatures of at most 8 types, each `T`, `T*` or `const T*`, whose names aren't reserved, and
/// each of them is the normal form of its text.
pub fn texts_are_normal()
    ensures forms { NormalFormsAreNormal }
    ensures texts { TextsAreNormal }
{}

impl<'a> Scanner<'a> {
    /// Takes the mark, if it comes next, and says whether it did.
    fn eat(&mut self, mark: Mark) -> bool
        ensures found { Eats (mark_token mark) self.old result self.new }
    {
        let saved = self.copy();
        match self.next() {
            Some(Scanned::Mark(found)) if found == mark => true,
            _ => {
                *self = saved;
                false
            }
        }
    }

    /// Takes `const`, if it comes next, and says whether it did.
    fn eat_const(&mut self) -> bool
        ensures found { Eats const_word self.old result self.new }
    {
        let saved = self.copy();
        match self.next() {
            Some(Scanned::Word(found)) if found == Word::Const.spelling() => true,
            _ => {
                *self = saved;
                false
            }
        }
    }

    /// Takes the next word; `None` where none comes next that is a name and isn't reserved.
    fn name(&mut self) -> Option<&'a [u8]>
        ensures found { TakesName self.old result self.new }
    {
        match self.next() {
            Some(Scanned::Word(name)) if is_name(name) && Word::of(name).is_none() => Some(name),
            _ => None,
        }
    }

    /// Whether what is left is a list without brackets, `)` and the end.
    fn is_closed(&self) -> bool
        ensures { IsTrue result ↔ IsClosed self.now }
    {
        let mut ahead = self.copy();
        while let Some(scanned) = ahead.next() {
            if !scanned.is_part() {
                return scanned.is_mark(Mark::Close) && ahead.next().is_none();
            }
        }
        false
    }

    /// `"," | ")"`: whether it is the bracket.
    fn ends_list(&mut self) -> Option<bool>
        ensures found { TakesSeparator self.old result self.new }
    {
        match self.next() {
            Some(Scanned::Mark(Mark::Close)) => Some(true),
            Some(Scanned::Mark(Mark::Comma)) => Some(false),
            _ => None,
        }
    }

    /// `["&" | "*"]`
    fn ending(&mut self) -> TypeEnding
        ensures { EndingAt self.old result self.new }
    {
        if self.eat(Mark::Ampersand) {
            TypeEnding::Reference
        } else if self.eat(Mark::Star) {
            TypeEnding::Pointer
        } else {
            TypeEnding::Bare
        }
    }

    /// `["const"] Name ["const"]`, with at most one `const`.
    fn named(&mut self) -> Option<(ConstPlace, &'a [u8])>
        ensures { TakesNamed self.old result self.new }
    {
        let is_before = self.eat_const();
        let name = self.name()?;
        let is_after = self.eat_const();
        match (is_before, is_after) {
            (false, false) => Some((ConstPlace::Nowhere, name)),
            (true, false) => Some((ConstPlace::Before, name)),
            (false, true) => Some((ConstPlace::After, name)),
            (true, true) => None,
        }
    }

    /// A type and what follows it: the type in its normal form, and whether it is the last one.
    fn kind(&mut self, alloc: Global) -> Result<(QType, bool), SigFault>
        ensures read { ReadsType self.old result self.new }
        ensures shorter { OnOk result (length self.new < length self.old) }
    {
        let Some((place, name)) = self.named() else {
            return Err(SigFault::BadType);
        };
        let ending = self.ending();
        let Some(is_last) = self.ends_list() else {
            return Err(SigFault::BadType);
        };
        let name = Name::new(alloc, name)?;
        match QType::normal(name, place, ending) {
            Some(kind) => Ok((kind, is_last)),
            None => Err(SigFault::BadType),
        }
    }

    /// `[type {"," type}] ")"`
    fn types(&mut self, alloc: Global) -> Result<Items<QType>, SigFault>
        ensures { ReadsTypes self.old result self.new }
    {
        let mut types = Items::new(alloc);
        let mut is_last = self.eat(Mark::Close);
        while !is_last {
            let (kind, ends) = self.kind(alloc)?;
            types.push(kind)?;
            is_last = ends;
        }
        Ok(types)
    }
}
