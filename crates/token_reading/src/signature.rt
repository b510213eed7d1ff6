//! Types, signatures and the kinds of connections.

ghost use Rattle.std.specs.Prelude.{◌≡◌, ◌<◌, ◌≤◌, List, length, IsTrue, ◌↔◌, OnOk};
ghost use Rattle.token_reading.specs.code.Reading.{Reads, EndsAnywhere};
ghost use Rattle.token_reading.specs.Signatures.{TypeReading, spelled_type, spell_type, tree_of_type, spell_sig, tree_of_sig, spell_kind, HasPlainReference, TypesAreNormal, OthersAreRefused};
ghost use Rattle.token_reading.specs.code.Signatures.{spell_place, EndsNamed, IsEnding, EndsType, BeginsWithAmpersand, BeginsWithReference};
ghost use Rattle.token_reading.specs.SignatureTexts.{TokensGiveNormalForms, NormalFormsAreInTokens};
ghost use Rattle.basic_types.specs.declared.word.Word.TheVariants as word;
ghost use Rattle.texts.specs.declared.token.Token.{Token};
ghost use Rattle.texts.specs.declared.token.Token.TheVariants as token;

use crate::cursor::Cursor;
use crate::fault::ParseFault;
use crate::lists::{Part, list};
use basic_types::{ConstPlace, Kind, Name, QType, Sig, TypeEnding, Word};
use texts::{Symbol, Token};

impl<'a> Cursor<'a> {
    /// `["const"] Name ["const"] ["&" | "*"]`, with at most one `const`: the type in its normal form, and T for `T &`,
    /// which has none.
    ///
    /// `Syntax` where the tokens begin with no type, and only there; `Memory` where a growth of memory was refused.
    pub fn kind(&mut self) -> Result<QType, ParseFault>
        ensures reads { Reads spell_type tree_of_type EndsType self.old result self.new }
        ensures shorter { OnOk result (length self.new < length self.old) }
    {
        let (place, name) = self.named()?;
        let ending = self.type_ending();
        Ok(type_of(name, place, ending))
    }

    /// `["const"] Name ["const"]`, with at most one `const`.
    fn named(&mut self) -> Result<(ConstPlace, Name), ParseFault>
        ensures reads { Reads spell_place (λ named. named) EndsNamed self.old result self.new }
        ensures shorter { OnOk result (length self.new < length self.old) }
    {
        if self.eat_word(Word::Const) {
            let name = self.name()?;
            return Ok((ConstPlace::Before, name));
        }
        let name = self.name()?;
        if self.eat_word(Word::Const) {
            Ok((ConstPlace::After, name))
        } else {
            Ok((ConstPlace::Nowhere, name))
        }
    }

    /// `["&" | "*"]`
    fn type_ending(&mut self) -> TypeEnding
        ensures is { IsEnding result self.old self.new }
        ensures no_longer { length self.new ≤ length self.old }
    {
        if self.eat(Symbol::Ampersand) {
            TypeEnding::Reference
        } else if self.eat(Symbol::Star) {
            TypeEnding::Pointer
        } else {
            TypeEnding::Bare
        }
    }

    /// `Name "(" [type {"," type}] ")"`
    ///
    /// `Syntax` where the tokens begin with no signature, and only there; `Memory` where a growth of memory was refused.
    pub fn sig(&mut self) -> Result<Sig, ParseFault>
        ensures reads { Reads spell_sig tree_of_sig EndsAnywhere self.old result self.new }
        ensures shorter { OnOk result (length self.new < length self.old) }
    {
        let name = self.name()?;
        let types = list::<TypePart>(self)?;
        let sig = Sig::new(self.alloc(), name, types)?;
        Ok(sig)
    }

    /// `"auto" | "direct" | "queued"`
    ///
    /// `Syntax` where none of them comes next, and only there.
    pub fn connection_kind(&mut self) -> Result<Kind, ParseFault>
        ensures reads { Reads spell_kind (λ kind. kind) EndsAnywhere self.old result self.new }
        ensures shorter { OnOk result (length self.new < length self.old) }
    {
        if self.eat_word(Word::Auto) {
            Ok(Kind::Auto)
        } else if self.eat_word(Word::Direct) {
            Ok(Kind::Direct)
        } else if self.eat_word(Word::Queued) {
            Ok(Kind::Queued)
        } else {
            Err(ParseFault::Syntax)
        }
    }
}

/// A type, as a part of a list.
pub struct TypePart;

impl Part for TypePart {
    type Tree = QType;

    ghost Reading = { TypeReading };

    ghost spell = { spell_type };

    ghost tree = { tree_of_type };

    ghost Ends = { EndsType };

    fn read(cursor: &mut Cursor) -> Result<QType, ParseFault> {
        cursor.kind()
    }
}

/// The type that is spelled so, which for `T &` is T.
#[inline(always)]
fn type_of(name: Name, place: ConstPlace, ending: TypeEnding) -> QType
    ensures { result ≡ tree_of_type (spelled_type place name ending) }
{
    match ending {
        TypeEnding::Bare => QType::value(name),
        TypeEnding::Reference => QType::value(name),
        TypeEnding::Pointer => QType::pointer_to(name, place != ConstPlace::Nowhere),
    }
}

/// A type in tokens is read as the normal form that a signature's text has by itself, and the types without a normal
/// form are those that `has_plain_reference` finds.
pub fn one_normal_form_of_types()
    ensures normal { TypesAreNormal }
    ensures refused { OthersAreRefused }
{}

/// A text's normal form, as `normalise` gives it, is read from its tokens; and where a text has no other bytes than a
/// signature may have, so without a comment, the signature that is read from its tokens is its normal form.
pub fn one_normal_form_of_signatures()
    ensures given { TokensGiveNormalForms }
    ensures read { NormalFormsAreInTokens }
{}

/// Whether a reference that isn't const, as `T &`, stands among the tokens.
pub fn has_plain_reference(tokens: &[Token]) -> bool
    ensures { IsTrue result ↔ HasPlainReference tokens.now }
{
    let mut after_const = false;
    let mut left = tokens;
    while let Some((token, after)) = left.split_first() {
        if !after_const && begins_with_reference(left) {
            return true;
        }
        after_const = is_const(token);
        left = after;
    }
    false
}

/// Whether the tokens begin with a name and `&`.
#[inline(always)]
fn begins_with_reference(tokens: &[Token]) -> bool
    ensures { IsTrue result ↔ BeginsWithReference tokens.now }
{
    match tokens.split_first() {
        Some((Token::Name(_), after)) => begins_with_ampersand(after),
        _ => false,
    }
}

/// Whether the tokens begin with `&`.
#[inline(always)]
fn begins_with_ampersand(tokens: &[Token]) -> bool
    ensures { IsTrue result ↔ BeginsWithAmpersand tokens.now }
{
    match tokens.split_first() {
        Some((Token::Symbol(symbol), _)) => *symbol == Symbol::Ampersand,
        _ => false,
    }
}

/// Whether it is `const`.
#[inline(always)]
fn is_const(first: &Token) -> bool
    ensures { IsTrue result ↔ (first.now ≡ token.Word word.Const) }
{
    match first {
        Token::Word(word) => *word == Word::Const,
        _ => false,
    }
}
