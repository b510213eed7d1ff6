//! Cuts a text into tokens.

ghost use Rattle.std.specs.Prelude.{◌≡◌, ◌++◌, [], ◌∷◌, ◌<◌, length, ◌↔◌, Err, IfOk, IsTrue, OnOk};
ghost use Rattle.texts.specs.code.Splitting.{IsWordOrName};
ghost use Rattle.texts.specs.Pieces.{AreTokens, IsUncut, OneCut};
ghost use Rattle.texts.specs.code.Splitting.{SplitsPiece, SplitsComment, SplitsText};
ghost use Rattle.basic_types.specs.Name.{IsName};
ghost use Rattle.texts.specs.declared.lexer.LexFault.TheVariants.{BadByte};

use crate::bytes::{ByteClass, Run, class_of, split_run};
use crate::interner::Interner;
use crate::symbol::split_symbol;
use crate::token::Token;
use basic_types::{Name, Word};
use sqlite_items::Items;
use std::alloc::{AllocError, Global};
use std::marker::Model;
use thiserror::Error;

/// A list has room at first for a token for so many bytes of its text, with the blanks before it. Most texts have fewer.
const BYTES_OF_A_TOKEN: usize = 4;

/// Why a text isn't cut into tokens.
#[derive(Debug, Drop, Error)]
pub enum LexFault {
    /// A byte begins no token, or a text literal isn't closed in its line.
    #[error("a byte begins no token")]
    BadByte,
    /// A growth of memory was refused.
    #[error("out of memory")]
    Memory,
}

impl From<AllocError> for LexFault {
    ghost use Rattle.std.specs.Prelude.{◌≡◌};
    ghost use Rattle.texts.specs.declared.lexer.LexFault.TheVariants.{Memory};

    ghost from_gives = { λ _ fault. fault ≡ Memory };

    fn from(_: AllocError) -> LexFault {
        LexFault::Memory
    }
}

/// The tokens of a text: the longest ones, from its front on. Blanks stand between them, and comments, which go from `//`
/// to the end of the line.
///
/// `BadByte` where the text isn't cut into tokens, and only there; `Memory` where a growth of memory was refused.
pub fn tokens(alloc: Global, bytes: &[u8]) -> Result<Items<Token>, LexFault>
    ensures cut { IfOk result (λ tokens. AreTokens bytes.now tokens) }
    ensures refused { result ≡ Err BadByte → IsUncut bytes.now }
{
    let mut interner = Interner::new(alloc, bytes.len())?;
    let mut found = Vec::with_capacity(alloc, bytes.len() / BYTES_OF_A_TOKEN)?;
    match fill(&mut interner, &mut found, bytes) {
        Ok(()) => Ok(Items::from_vec(found)),
        Err(fault) => Err(fault),
    }
}

/// A text is cut in at most one way.
pub fn one_cut()
    ensures { OneCut }
{}

/// Cuts texts, one after another, which contracts see as the tokens of the last one: their list is filled again for each
/// text, and what is spelled as it was in one before is shared with it.
pub struct Lexer {
    interner: Interner,
    found: Vec<Token>,
}

impl Drop for Lexer {
    fn drop(self) {
        let Lexer {
            interner: _,
            found: _,
        } = self;
    }
}

impl Model for Lexer {
    ghost use Rattle.std.specs.Prelude.{List};
    ghost use Rattle.texts.specs.declared.token.Token.{Token};

    ghost Value = { List Token };

    ghost view = { λ lexer. lexer.found.items };
}

impl Lexer {
    /// One for texts of so many bytes in all, which has no tokens yet.
    pub fn new(alloc: Global, text: usize) -> Result<Lexer, AllocError>
        ensures { IfOk result (λ lexer. lexer ≡ []) }
    {
        let interner = Interner::new(alloc, text)?;
        Ok(Lexer {
            interner,
            found: Vec::new(alloc),
        })
    }

    /// Cuts the text into its tokens, as `tokens` does.
    ///
    /// `BadByte` where the text isn't cut into tokens, and only there; `Memory` where a growth of memory was refused. The
    /// next text may be cut all the same.
    pub fn cut(&mut self, bytes: &[u8]) -> Result<(), LexFault>
        ensures cut { OnOk result (AreTokens bytes.now self.new) }
        ensures refused { result ≡ Err BadByte → IsUncut bytes.now }
    {
        fill(&mut self.interner, &mut self.found, bytes)
    }

    /// Whether the text that was cut last has no token.
    pub fn is_empty(&self) -> bool
        ensures { IsTrue result ↔ (self.now ≡ []) }
    {
        self.tokens().is_empty()
    }

    /// The tokens of the text that was cut last.
    pub fn tokens(&self) -> &[Token]
        ensures { result.now ≡ self.now }
    {
        self.found.as_slice()
    }
}

/// Fills the list with the tokens of the text, in place of those that it has.
fn fill(interner: &mut Interner, found: &mut Vec<Token>, bytes: &[u8]) -> Result<(), LexFault>
    ensures cut { OnOk result (AreTokens bytes.now found.new.items) }
    ensures refused { result ≡ Err BadByte → IsUncut bytes.now }
{
    found.clear();
    let mut rest = bytes;
    while !rest.is_empty() {
        let (token, after) = split_piece(interner, rest)?;
        if let Some(token) = token {
            add(found, token)?;
        }
        rest = after;
    }
    Ok(())
}

/// Adds a token to the list.
#[inline(always)]
fn add(found: &mut Vec<Token>, token: Token) -> Result<(), AllocError>
    ensures { OnOk result (found.new.items ≡ found.old.items ++ token ∷ []) }
{
    found.push(token)?;
    Ok(())
}

/// The token of the piece at the front, if it is one, and what follows it.
///
/// `BadByte` where no piece is there, and only there; `Memory` where a growth of memory was refused.
#[inline(always)]
pub fn split_piece<'a>(
    interner: &mut Interner,
    bytes: &'a [u8],
) -> Result<(Option<Token>, &'a [u8]), LexFault>
    ensures cut { SplitsPiece bytes.now result }
    ensures shorter { IfOk result (λ p. length p.1.now < length bytes.now) }
{
    let Some((first, after)) = bytes.split_first() else {
        return Err(LexFault::BadByte);
    };
    match class_of(*first) {
        ByteClass::Blank => Ok((None, after)),
        ByteClass::Slash => {
            let rest = split_comment(after)?;
            Ok((None, rest))
        }
        ByteClass::Letter => {
            let (letters, rest) = split_run(bytes, Run::Name);
            let token = word_or_name(interner, letters)?;
            Ok((Some(token), rest))
        }
        ByteClass::Digit => {
            let (digits, rest) = split_run(bytes, Run::Number);
            let number = interner.share(digits)?;
            Ok((Some(Token::Number(number)), rest))
        }
        ByteClass::Quote => {
            let (inner, rest) = split_text(after)?;
            let text = interner.share(inner)?;
            Ok((Some(Token::Text(text)), rest))
        }
        ByteClass::Other => match split_symbol(bytes) {
            Some((symbol, rest)) => Ok((Some(Token::Symbol(symbol)), rest)),
            None => Err(LexFault::BadByte),
        },
    }
}

/// The reserved word or the name with these letters.
#[inline(always)]
fn word_or_name(interner: &mut Interner, letters: &[u8]) -> Result<Token, AllocError>
    requires { IsName letters.now }
    ensures { IfOk result (λ token. IsWordOrName token letters.now) }
{
    match Word::of(letters) {
        Some(word) => Ok(Token::Word(word)),
        None => {
            let shared = interner.share_often(letters)?;
            Ok(Token::Name(Name::sharing(shared)))
        }
    }
}

/// What follows a comment, after its first slash.
#[inline(always)]
fn split_comment(bytes: &[u8]) -> Result<&[u8], LexFault>
    ensures { SplitsComment bytes.now result }
{
    match bytes.split_first() {
        Some((slash, after)) if *slash == b'/' => {
            let (_, rest) = split_run(after, Run::Line);
            Ok(rest)
        }
        _ => Err(LexFault::BadByte),
    }
}

/// A text and what follows it, after its first quote.
#[inline(always)]
fn split_text(bytes: &[u8]) -> Result<(&[u8], &[u8]), LexFault>
    ensures { SplitsText bytes.now result }
{
    let (inner, rest) = split_run(bytes, Run::Text);
    match rest.split_first() {
        Some((quote, after)) if *quote == b'"' => Ok((inner, after)),
        _ => Err(LexFault::BadByte),
    }
}
