//! A place in a list of tokens, and what every reader takes there.

ghost use Rattle.std.specs.Prelude.{◌≡◌, ◌↔◌, ◌<◌, ◌≤◌, [], length, IsTrue, OnOk};
ghost use Rattle.std.specs.Bool.{OnTrue};
ghost use Rattle.token_reading.specs.code.Cursor.{TakesNext, Eats, Expects};
ghost use Rattle.token_reading.specs.code.Optional.{ReadsOptionalName};
ghost use Rattle.token_reading.specs.code.Reading.{Reads, EndsAnywhere};
ghost use Rattle.token_reading.specs.Reading.{spell_name};
ghost use Rattle.texts.specs.declared.token.Token.TheVariants as token;

use crate::fault::ParseFault;
use crate::trail::{Landmark, Trail, begin, want, want_each};
use crate::wanted::Wanted;
use basic_types::{Name, Word};
use std::alloc::Global;
use std::marker::Model;
use texts::{Symbol, Token};

/// A place in a list of tokens, which contracts see as the tokens that are left. One that records notes also what is looked
/// for, and where parts begin, for explanations.
#[derive(Drop)]
pub struct Cursor<'a> {
    alloc: Global,
    tokens: &'a [Token],
    trail: Option<Trail>,
}

impl<'a> Model for Cursor<'a> {
    ghost use Rattle.std.specs.Prelude.{List};
    ghost use Rattle.texts.specs.declared.token.Token.{Token};

    ghost Value = { List Token };

    ghost view = { λ cursor. cursor.tokens.now };
}

impl<'a> Cursor<'a> {
    /// The front of the tokens.
    pub fn new(alloc: Global, tokens: &'a [Token]) -> Cursor<'a>
        ensures { result ≡ tokens.now }
    {
        Cursor {
            alloc,
            tokens,
            trail: None,
        }
    }

    /// The front of the tokens, for a cursor that records.
    pub fn recording(alloc: Global, tokens: &'a [Token]) -> Cursor<'a>
        ensures { result ≡ tokens.now }
    {
        let trail = Trail::new(alloc, tokens.len());
        Cursor {
            alloc,
            tokens,
            trail: Some(trail),
        }
    }

    /// What was noted; `None` where the cursor doesn't record.
    pub fn into_trail(self) -> Option<Trail> {
        let Cursor {
            alloc: _,
            tokens: _,
            trail,
        } = self;
        trail
    }

    /// What trees are built with.
    #[inline(always)]
    pub fn alloc(&self) -> Global {
        self.alloc
    }

    /// The tokens that are left.
    #[inline(always)]
    pub fn rest(&self) -> &'a [Token]
        ensures { result.now ≡ self.now }
    {
        self.tokens
    }

    /// The tokens that are left, of which the first is looked at for one of these.
    #[inline(always)]
    pub fn ahead(&mut self, wanted: &[Wanted]) -> &'a [Token]
        ensures tokens { result.now ≡ self.old }
        ensures same { self.new ≡ self.old }
    {
        want_each(&mut self.trail, self.tokens.len(), wanted);
        self.tokens
    }

    /// Goes back to where these tokens are left.
    pub(crate) fn rewind(&mut self, tokens: &'a [Token])
        ensures { self.new ≡ tokens.now }
    {
        self.tokens = tokens;
    }

    /// Notes that the end of the tokens has to come here.
    pub fn want_end(&mut self)
        ensures { self.new ≡ self.old }
    {
        want(&mut self.trail, self.tokens.len(), Wanted::End);
    }

    /// Whether no token is left.
    #[inline(always)]
    pub fn is_empty(&self) -> bool
        ensures { IsTrue result ↔ (self.now ≡ []) }
    {
        self.tokens.is_empty()
    }

    /// Takes the next token; at the end that is a fault of syntax.
    #[inline(always)]
    pub fn next(&mut self) -> Result<&'a Token, ParseFault>
        ensures found { TakesNext self.old result self.new }
        ensures shorter { OnOk result (length self.new < length self.old) }
    {
        match self.tokens.split_first() {
            Some((first, rest)) => {
                self.tokens = rest;
                Ok(first)
            }
            None => Err(ParseFault::Syntax),
        }
    }

    /// Takes the next token, which is to be one of these; at the end that is a fault of syntax.
    #[inline(always)]
    pub fn next_of(&mut self, wanted: &[Wanted]) -> Result<&'a Token, ParseFault>
        ensures found { TakesNext self.old result self.new }
        ensures shorter { OnOk result (length self.new < length self.old) }
    {
        want_each(&mut self.trail, self.tokens.len(), wanted);
        self.next()
    }

    /// Takes the next token, which is to be this; at the end that is a fault of syntax.
    #[inline(always)]
    pub(crate) fn next_as(&mut self, wanted: Wanted) -> Result<&'a Token, ParseFault>
        ensures found { TakesNext self.old result self.new }
        ensures shorter { OnOk result (length self.new < length self.old) }
    {
        want(&mut self.trail, self.tokens.len(), wanted);
        self.next()
    }

    /// Takes the next token, which is to be one of these and begins such a part; at the end that is a fault of syntax.
    #[inline(always)]
    pub fn opening(
        &mut self,
        landmark: Landmark,
        wanted: &[Wanted],
    ) -> Result<&'a Token, ParseFault>
        ensures found { TakesNext self.old result self.new }
        ensures shorter { OnOk result (length self.new < length self.old) }
    {
        begin(&mut self.trail, self.tokens.len(), landmark);
        self.next_of(wanted)
    }

    /// Takes the reserved word, if it comes next, and says whether it did.
    #[inline]
    pub fn eat_word(&mut self, word: Word) -> bool
        ensures found { Eats (token.Word word) self.old result self.new }
        ensures shorter { OnTrue result (length self.new < length self.old) }
    {
        want(&mut self.trail, self.tokens.len(), Wanted::Word(word));
        match self.tokens.split_first() {
            Some((Token::Word(found), rest)) if *found == word => {
                self.tokens = rest;
                true
            }
            _ => false,
        }
    }

    /// Takes the reserved word with which such a part begins, if it comes next, and says whether it did.
    #[inline]
    pub fn eat_opening(&mut self, landmark: Landmark, word: Word) -> bool
        ensures found { Eats (token.Word word) self.old result self.new }
        ensures shorter { OnTrue result (length self.new < length self.old) }
    {
        let left = self.tokens.len();
        let found = self.eat_word(word);
        if found {
            begin(&mut self.trail, left, landmark);
        }
        found
    }

    /// Takes the symbol, if it comes next, and says whether it did.
    #[inline]
    pub fn eat(&mut self, symbol: Symbol) -> bool
        ensures found { Eats (token.Symbol symbol) self.old result self.new }
        ensures shorter { OnTrue result (length self.new < length self.old) }
    {
        want(&mut self.trail, self.tokens.len(), Wanted::Symbol(symbol));
        match self.tokens.split_first() {
            Some((Token::Symbol(found), rest)) if *found == symbol => {
                self.tokens = rest;
                true
            }
            _ => false,
        }
    }

    /// Takes the symbol, which has to come next; where it doesn't, that is a fault of syntax.
    #[inline]
    pub fn expect(&mut self, symbol: Symbol) -> Result<(), ParseFault>
        ensures found { Expects (token.Symbol symbol) self.old result self.new }
        ensures shorter { OnOk result (length self.new < length self.old) }
    {
        if self.eat(symbol) {
            Ok(())
        } else {
            Err(ParseFault::Syntax)
        }
    }

    /// Takes the reserved word, which has to come next; where it doesn't, that is a fault of syntax.
    #[inline]
    pub fn expect_word(&mut self, word: Word) -> Result<(), ParseFault>
        ensures found { Expects (token.Word word) self.old result self.new }
        ensures shorter { OnOk result (length self.new < length self.old) }
    {
        if self.eat_word(word) {
            Ok(())
        } else {
            Err(ParseFault::Syntax)
        }
    }

    /// Takes the name that has to come next; where none does, that is a fault of syntax.
    #[inline]
    pub fn name(&mut self) -> Result<Name, ParseFault>
        ensures reads { Reads spell_name (λ name. name) EndsAnywhere self.old result self.new }
        ensures shorter { OnOk result (length self.new < length self.old) }
    {
        want(&mut self.trail, self.tokens.len(), Wanted::Name);
        match self.tokens.split_first() {
            Some((Token::Name(name), rest)) => {
                self.tokens = rest;
                Ok(name.copy()?)
            }
            _ => Err(ParseFault::Syntax),
        }
    }

    /// Takes the name, if one comes next.
    pub fn optional_name(&mut self) -> Result<Option<Name>, ParseFault>
        ensures reads { ReadsOptionalName self.old result self.new }
        ensures no_longer { OnOk result (length self.new ≤ length self.old) }
    {
        want(&mut self.trail, self.tokens.len(), Wanted::Name);
        match self.tokens.first() {
            Some(Token::Name(_)) => Ok(Some(self.name()?)),
            _ => Ok(None),
        }
    }
}
