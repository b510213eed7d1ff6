//! What events begin with.

ghost use Rattle.script_lang.specs.code.Grammar.{IsVerbOf};
ghost use Rattle.texts.specs.declared.token.Token.TheVariants as token;

use basic_types::{Name, Word};
use texts::Token;

/// The first word of an event: a reserved word, or a name, which objects, classes and event loops may have too.
#[derive(Clone, Copy, Debug, PartialEq, Eq)]
pub enum Verb {
    /// `loop`
    Loop,
    /// `turn`
    Turn,
    /// `new`
    New,
    /// `adopt`
    Adopt,
    /// `move`
    Move,
    /// `connect`
    Connect,
    /// `disconnect`
    Disconnect,
    /// `set`
    Set,
    /// `emit`
    Emit,
    /// `call`
    Call,
    /// `bind`
    Bind,
    /// `block`
    Block,
    /// `unblock`
    Unblock,
    /// `delete`
    Delete,
    /// `later`
    Later,
}

impl Verb {
    /// The verb that the token is, or `None` where it is no verb.
    pub fn of(token: &Token) -> Option<Verb>
        ensures { IsVerbOf token.now result }
    {
        match token {
            Token::Word(word) => Verb::reserved(*word),
            Token::Name(name) => Verb::named(name),
            _ => None,
        }
    }

    /// The verb that the reserved word is, or `None` where it is no verb.
    fn reserved(word: Word) -> Option<Verb>
        ensures { IsVerbOf (token.Word word) result }
    {
        match word {
            Word::Connect => Some(Verb::Connect),
            Word::Disconnect => Some(Verb::Disconnect),
            Word::Set => Some(Verb::Set),
            Word::Emit => Some(Verb::Emit),
            Word::Call => Some(Verb::Call),
            Word::Delete => Some(Verb::Delete),
            Word::Later => Some(Verb::Later),
            _ => None,
        }
    }

    /// The verb that the name is, or `None` where it is no verb.
    fn named(name: &Name) -> Option<Verb>
        ensures { IsVerbOf (token.Name name.now) result }
    {
        let letters = name.bytes();
        if letters == b"loop".as_slice() {
            Some(Verb::Loop)
        } else if letters == b"turn".as_slice() {
            Some(Verb::Turn)
        } else if letters == b"new".as_slice() {
            Some(Verb::New)
        } else if letters == b"adopt".as_slice() {
            Some(Verb::Adopt)
        } else if letters == b"move".as_slice() {
            Some(Verb::Move)
        } else if letters == b"bind".as_slice() {
            Some(Verb::Bind)
        } else if letters == b"block".as_slice() {
            Some(Verb::Block)
        } else if letters == b"unblock".as_slice() {
            Some(Verb::Unblock)
        } else {
            None
        }
    }
}
