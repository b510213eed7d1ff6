//! What could come, in words.

use diagnostics::push_printed;
use std::alloc::{AllocError, Global};
use texts::{Symbol, Word};
use token_reading::{GREATEST, Wanted};

/// What is looked for at once, and how it is called.
struct WantedGroup {
    name: &'static str,
    members: &'static [Wanted],
}

macro_rules! groups {
    ($($name:literal: [$($word:ident)*] [$($symbol:ident)*] [$($other:expr),*];)*) => {
        &[$(WantedGroup {
            name: $name,
            members: &[
                $(Wanted::Word(Word::$word),)*
                $(Wanted::Symbol(Symbol::$symbol),)*
                $($other,)*
            ],
        },)*]
    };
}

/// The groups; one that is part of another one comes behind it.
fn groups() -> &'static [WantedGroup] {
    groups! {
        "a statement (`set`, `emit`, `call`, `if`, `connect`, `disconnect`, `delete`, `later` or `group`)": [Set Emit Call If Connect Disconnect Delete Later] [] [Wanted::Spelled(b"group")];
        "a member (`property`, `signal`, `slot` or `native`)": [Property Signal Slot Native] [] [];
        "a declaration (`class`, `wire`, `owns` or `binding`)": [Class Wire Owns Binding] [] [];
        "a kind (`auto`, `direct` or `queued`)": [Auto Direct Queued] [] [];
        "a value": [This True False Null] [Open Not Minus] [Wanted::Name, Wanted::Number(GREATEST), Wanted::Text];
        "a value": [True False Null] [Minus] [Wanted::Name, Wanted::Number(GREATEST), Wanted::Text];
        "a literal": [True False Null] [Minus] [Wanted::Number(GREATEST), Wanted::Text];
        "an operator": [] [Star Plus Minus Equal Unequal Less AtMost Greater AtLeast And Or] [];
        "an operator": [] [Star Plus Minus And Or] [];
        "more of the type (`const`, `&` or `*`)": [Const] [Ampersand Star] [];
        "a type": [Const] [] [Wanted::Name];
        "`this` or a name": [This] [] [Wanted::Name];
        "a class (`C` or `~C`)": [] [Tilde] [Wanted::Name];
    }
}

impl WantedGroup {
    /// Whether each member is one of what is looked for.
    fn is_in(&self, wanted: &[Wanted]) -> bool {
        for member in self.members {
            if !is_among(member, wanted) {
                return false;
            }
        }
        true
    }
}

/// Adds what could come.
pub fn push_wanted(text: &mut String, alloc: Global, wanted: &[Wanted]) -> Result<(), AllocError> {
    let wanted = each_once(alloc, wanted)?;
    match wanted.as_slice() {
        [Wanted::End] => text.push_str("nothing may follow"),
        _ => push_alternatives(text, wanted),
    }
}

/// Whether it is one of these.
pub fn is_among(one: &Wanted, these: &[Wanted]) -> bool {
    these.contains(one)
}

/// What could come, each once.
fn each_once(alloc: Global, wanted: &[Wanted]) -> Result<Vec<Wanted>, AllocError> {
    let mut found = Vec::new(alloc);
    for one in wanted {
        if !is_among(one, found.as_slice()) {
            found.push(*one)?;
        }
    }
    Ok(found)
}

/// Adds what could come: by groups, and then what is left one by one.
fn push_alternatives(text: &mut String, wanted: Vec<Wanted>) -> Result<(), AllocError> {
    let mut left = wanted;
    let mut between = "wanted is ";
    for group in groups() {
        if group.is_in(left.as_slice()) {
            left.retain(|one| !is_among(one, group.members));
            text.push_str(between)?;
            text.push_str(group.name)?;
            between = " or ";
        }
    }
    for one in left.as_slice() {
        text.push_str(between)?;
        push_one(text, *one)?;
        between = " or ";
    }
    Ok(())
}

/// Adds what could come by itself.
fn push_one(text: &mut String, wanted: Wanted) -> Result<(), AllocError> {
    let spelled = match wanted {
        Wanted::Name => return text.push_str("a name"),
        Wanted::Number(_) => return text.push_str("a number"),
        Wanted::Text => return text.push_str("a text"),
        Wanted::Verb => return text.push_str("an event"),
        Wanted::End => return text.push_str("the end of the line"),
        Wanted::Symbol(symbol) => return text.push_str(quoted(symbol)),
        Wanted::Word(word) => word.spelling(),
        Wanted::Spelled(name) => name,
    };
    text.push('`')?;
    push_printed(text, spelled)?;
    text.push('`')
}

/// How a symbol is reported that is looked for by itself, as no operator is.
fn quoted(symbol: Symbol) -> &'static str {
    match symbol {
        Symbol::OpenBrace => "`{`",
        Symbol::CloseBrace => "`}`",
        Symbol::Open => "`(`",
        Symbol::Close => "`)`",
        Symbol::Semicolon => "`;`",
        Symbol::Comma => "`,`",
        Symbol::Dot => "`.`",
        Symbol::Colon => "`:`",
        Symbol::Assign => "`=`",
        Symbol::Arrow => "`->`",
        Symbol::Ampersand => "`&`",
        Symbol::Star => "`*`",
        Symbol::Tilde => "`~`",
        _ => "an operator",
    }
}
