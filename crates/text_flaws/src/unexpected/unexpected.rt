//! A token that can't stand where it does, or an end that comes too early.

use crate::unexpected::advice::advice;
use crate::unexpected::source::TokenizedText;
use crate::unexpected::wanted::{is_among, push_wanted};
use basic_types::LONGEST_TEXT;
use diagnostics::Flaw;
use std::alloc::{AllocError, Global};
use texts::{Symbol, Token, Word};
use token_reading::{Trail, Wanted};

/// A token that can't stand where it does, or the end where it comes too early.
#[derive(Clone, Copy)]
pub struct Unexpected<'a> {
    /// The text, which may be a line of one.
    pub source: TokenizedText<'a>,
    /// How many tokens come before it.
    pub at: usize,
    trail: &'a Trail,
}

impl<'a> Unexpected<'a> {
    /// Where a reader stopped that went so through a text.
    pub fn new(source: TokenizedText<'a>, trail: &'a Trail) -> Unexpected<'a> {
        Unexpected {
            source,
            at: trail.farthest(),
            trail,
        }
    }

    /// Whether this could come.
    pub fn wants(self, wanted: Wanted) -> bool {
        is_among(&wanted, self.trail.wanted())
    }

    /// Whether this symbol could come.
    pub fn wants_symbol(self, symbol: Symbol) -> bool {
        self.wants(Wanted::Symbol(symbol))
    }

    /// Whether this word could come.
    pub fn wants_word(self, word: Word) -> bool {
        self.wants(Wanted::Word(word))
    }

    /// Whether a name that is spelled out could come.
    pub fn wants_spelled(self) -> bool {
        self.wanted()
            .iter()
            .any(|wanted| matches!(wanted, Wanted::Spelled(_)))
    }

    /// Whether a number could come.
    pub fn wants_number(self) -> bool {
        self.greatest().is_some()
    }

    /// What could come.
    pub fn wanted(self) -> &'a [Wanted] {
        self.trail.wanted()
    }

    /// The greatest number that could come.
    fn greatest(self) -> Option<u32> {
        self.trail.wanted().iter().find_map(|wanted| match wanted {
            Wanted::Number(most) => Some(*most),
            _ => None,
        })
    }

    /// Whether it is in a line by itself, of a script or of a certificate, or in front of all declarations.
    pub fn is_in_line(self) -> bool {
        self.trail.begun().is_empty()
    }

    /// The first token of the innermost part in which it is: a statement, a member, a declaration or a line.
    pub fn head(self) -> usize {
        let mut head = 0;
        for begun in self.trail.begun() {
            if begun.at < self.at {
                head = begun.at;
            }
        }
        head
    }

    /// The first token of the last part in front of it that begins with one of these words.
    pub fn last_begun(self, words: &[Word]) -> Option<usize> {
        let mut last = None;
        for begun in self.trail.begun() {
            if let Some(Token::Word(word)) = self.source.token(begun.at)
                && begun.at < self.at
                && words.contains(word)
            {
                last = Some(begun.at);
            }
        }
        last
    }

    /// What is wrong, and what to write instead.
    pub fn flaw(self, alloc: Global) -> Result<Flaw, AllocError> {
        if let Some(at) = self.of_no_binding() {
            return self.binding_flaw(alloc, at);
        }
        Ok(Flaw {
            at: self.source.place(self.at),
            sentence: self.sentence(alloc)?,
            advice: advice(alloc, self)?,
        })
    }

    /// What is wrong.
    fn sentence(self, alloc: Global) -> Result<String, AllocError> {
        let spelled = self.source.shown(self.at);
        match (self.source.token(self.at), self.greatest()) {
            (Some(Token::Text(bytes)), _) if self.wants(Wanted::Text) => {
                let size = bytes.len();
                format!(in alloc; "the text has {size} bytes: at most {LONGEST_TEXT} may be")
            }
            (Some(Token::Number(_)), Some(most)) => {
                format!(in alloc; "the number `{spelled}` is too great: at most {most} may be")
            }
            (Some(_), _) if self.wants(Wanted::Verb) => {
                format!(in alloc; "`{spelled}` begins no event")
            }
            (Some(_), _) => {
                let begin = format!(in alloc; "`{spelled}` can't stand here: ")?;
                self.with_wanted(alloc, begin)
            }
            (None, _) => {
                let begin = String::from_str(alloc, "this ends too early: ")?;
                self.with_wanted(alloc, begin)
            }
        }
    }

    /// The sentence that begins so, and says what could come.
    fn with_wanted(self, alloc: Global, begin: String) -> Result<String, AllocError> {
        let mut sentence = begin;
        push_wanted(&mut sentence, alloc, self.wanted())?;
        Ok(sentence)
    }

    /// The first token that can't be in the expression of a binding, where one was read to its `;`.
    fn of_no_binding(self) -> Option<usize> {
        if !self.source.is(self.at, Symbol::Semicolon) || !self.wants_symbol(Symbol::Semicolon) {
            return None;
        }
        let begin = (self.head()..self.at).find(|at| self.source.is(*at, Symbol::Assign))?;
        (begin..self.at).find(|at| self.is_foreign(*at))
    }

    /// Whether the token is `this`, `null`, a name without a property, or the dot in front of a second property.
    fn is_foreign(self, at: usize) -> bool {
        let source = self.source;
        match source.token(at) {
            Some(Token::Word(Word::This | Word::Null)) => true,
            Some(Token::Name(_)) => {
                !source.is(at.saturating_sub(1), Symbol::Dot)
                    && !source.is(at.saturating_add(1), Symbol::Dot)
            }
            Some(Token::Symbol(Symbol::Dot)) => source.is(at.saturating_sub(2), Symbol::Dot),
            _ => false,
        }
    }

    fn binding_flaw(self, alloc: Global, at: usize) -> Result<Flaw, AllocError> {
        let spelled = self.source.shown(at);
        let sentence = format!(in alloc; "`{spelled}` can't stand in the expression of a binding")?;
        let advice =
            "a binding reads its formal sources alone, each by one property, as `a.p`, and has no `this` and no `null`";
        Flaw::with_advice(alloc, self.source.place(at), sentence, Some(advice))
    }
}
