//! Where a text goes over a limit (docs/language.md, "Limits"), and how far.

ghost use Rattle.std.specs.Prelude.{◌≤◌, length, IfOk, IfSome};

use crate::parts::within;
use crate::unexpected::TokenizedText;
use basic_types::MOST_PARAMETERS;
use class_lang::Limits;
use diagnostics::Flaw;
use std::alloc::{AllocError, Global};
use texts::{MOST_BYTES, Symbol, Token, Word};
use token_reading::Trail;

/// A limit of how many declarations there may be.
#[derive(Clone, Copy)]
struct Limit {
    /// How many there may be.
    most: usize,
    /// How many with `--wide`.
    wide: usize,
    name: &'static str,
    /// With which words those begin that are counted.
    words: &'static [Word],
    /// Whether they are counted in each class, and not in the whole program.
    in_class: bool,
}

macro_rules! counted {
    ($limits:ident; $($field:ident $name:literal [$($word:ident)*] $in_class:literal;)*) => {
        [$(Limit {
            most: $limits.$field,
            wide: Limits::wide().$field,
            name: $name,
            words: &[$(Word::$word),*],
            in_class: $in_class,
        },)*]
    };
}

/// What these limits say of a program's declarations.
fn counted(limits: Limits) -> [Limit; 7] {
    counted! {
        limits;
        classes "classes" [Class] false;
        wires "wires" [Wire] false;
        owns "`owns`" [Owns] false;
        sites "bindings" [Binding] false;
        natives "natives" [Native] false;
        properties "properties" [Property] true;
        methods "signals, slots and natives" [Signal Slot Native] true;
    }
}

/// What goes over a limit.
#[derive(Clone, Copy)]
struct Excess {
    /// The first token of the first declaration that is one too many.
    at: usize,
    /// How many there are.
    total: usize,
    /// The name of the class in which they are counted.
    class: usize,
}

impl Limit {
    /// What goes over it, if anything does.
    fn excess(&self, source: TokenizedText, trail: &Trail) -> Option<Excess> {
        let mut found: Option<Excess> = None;
        let mut total = 0usize;
        let mut class = 0usize;
        for begun in trail.begun() {
            let Some(Token::Word(word)) = source.token(begun.at) else {
                continue;
            };
            if self.in_class && *word == Word::Class {
                if found.is_some() {
                    break;
                }
                total = 0;
                class = begun.at.saturating_add(1);
            }
            if self.words.contains(word) {
                total = total.saturating_add(1);
                let at = match &found {
                    Some(first) => first.at,
                    None => begun.at,
                };
                if total > self.most {
                    found = Some(Excess { at, total, class });
                }
            }
        }
        found
    }
}

/// The first declaration with which there are more than these limits say, or else the first name that is longer.
pub fn count_flaw(
    alloc: Global,
    limits: Limits,
    source: TokenizedText,
    trail: &Trail,
) -> Result<Option<Flaw>, AllocError> {
    let Some((limit, excess)) = first_excess(limits, source, trail) else {
        return name_flaw(alloc, limits.name, source);
    };
    let sentence = excess_sentence(alloc, source, &limit, &excess)?;
    let mut flaw = Flaw::with_advice(alloc, source.place(excess.at), sentence, None)?;
    let wide = Limits::wide();
    if first_excess(wide, source, trail).is_none() && long_name(wide.name, source).is_none() {
        flaw.advice = Some(wide_advice(alloc, limit.wide)?);
    }
    Ok(Some(flaw))
}

/// The first name with more bytes than this.
fn name_flaw(
    alloc: Global,
    most: usize,
    source: TokenizedText,
) -> Result<Option<Flaw>, AllocError> {
    let Some((at, length)) = long_name(most, source) else {
        return Ok(None);
    };
    let sentence = format!(in alloc; "this name has {length} bytes: at most {most} may be")?;
    Ok(Some(Flaw::with_advice(alloc, source.place(at), sentence, None)?))
}

/// The number of the first token that is a name with more bytes than this, and how many it has.
fn long_name(most: usize, source: TokenizedText) -> Option<(usize, usize)> {
    for at in 0..source.tokens.len() {
        let length = source.spelled(at).len();
        if length > most && source.is_name(at) {
            return Some((at, length));
        }
    }
    None
}

/// The first declaration that goes over one of these limits, and over which, if one does.
fn first_excess(limits: Limits, source: TokenizedText, trail: &Trail) -> Option<(Limit, Excess)> {
    let mut first: Option<(Limit, Excess)> = None;
    for limit in &counted(limits) {
        if let Some(excess) = limit.excess(source, trail) {
            let is_first = match &first {
                Some((_, other)) => excess.at < other.at,
                None => true,
            };
            if is_first {
                first = Some((*limit, excess));
            }
        }
    }
    first
}

/// What helps where the limits are too small, and the wide ones aren't.
fn wide_advice(alloc: Global, most: usize) -> Result<String, AllocError> {
    format!(in alloc; "with `--wide` at most {most} may be")
}

fn excess_sentence(
    alloc: Global,
    source: TokenizedText,
    limit: &Limit,
    excess: &Excess,
) -> Result<String, AllocError> {
    let (name, most, total) = (limit.name, limit.most, excess.total);
    let mut sentence = if limit.in_class {
        let class = source.shown(excess.class);
        format!(in alloc; "class `{class}`")?
    } else {
        String::from_str(alloc, "the program")?
    };
    write!(
        sentence,
        " has {total} {name}: at most {most} may be, and this is the first one too many"
    )?;
    Ok(sentence)
}

/// A script with more bytes than it may have.
pub fn script_size_flaw(alloc: Global, text: &[u8]) -> Result<Option<Flaw>, AllocError>
    ensures { IfOk result (λ flaw. IfSome flaw (λ f. f.at ≤ length text.now)) }
{
    size_flaw(alloc, "script", text, MOST_BYTES)
}

/// A program with more bytes than these limits say.
pub fn program_size_flaw(
    alloc: Global,
    limits: Limits,
    text: &[u8],
) -> Result<Option<Flaw>, AllocError>
    ensures { IfOk result (λ flaw. IfSome flaw (λ f. f.at ≤ length text.now)) }
{
    let Some(mut flaw) = size_flaw(alloc, "program", text, limits.bytes)? else {
        return Ok(None);
    };
    let wide = Limits::wide().bytes;
    if text.len() <= wide {
        flaw.advice = Some(wide_advice(alloc, wide)?);
    }
    Ok(within(0, text.len(), Some(flaw)))
}

/// A text of this name with more bytes than this.
fn size_flaw(
    alloc: Global,
    name: &str,
    text: &[u8],
    most: usize,
) -> Result<Option<Flaw>, AllocError>
    ensures { IfOk result (λ flaw. IfSome flaw (λ f. f.at ≤ length text.now)) }
{
    let size = text.len();
    if size <= most {
        return Ok(None);
    }
    let sentence = format!(in alloc; "the {name} has {size} bytes: at most {most} may be")?;
    let flaw = Flaw::with_advice(alloc, most, sentence, None)?;
    Ok(within(0, size, Some(flaw)))
}

/// The first token with which more than 32 of `(` and `{` are open, or more than 200 tokens stand together.
pub fn depth_flaw(alloc: Global, source: TokenizedText) -> Result<Option<Flaw>, AllocError> {
    let mut open = 0u32;
    let mut together = 0u32;
    for placed in source.tokens {
        open = match placed.token {
            Token::Symbol(Symbol::Open | Symbol::OpenBrace) => open.saturating_add(1),
            Token::Symbol(Symbol::Close | Symbol::CloseBrace) => open.saturating_sub(1),
            _ => open,
        };
        together = match placed.token {
            Token::Symbol(Symbol::Semicolon | Symbol::OpenBrace | Symbol::CloseBrace) => 0,
            _ => together.saturating_add(1),
        };
        let sentence = if open > 32 {
            "this bracket is the 33rd that is open at once: at most 32 may be"
        } else if together > 200 {
            "this is the 201st token without a `;`, `{` or `}`: at most 200 may stand together"
        } else {
            continue;
        };
        let sentence = String::from_str(alloc, sentence)?;
        return Ok(Some(Flaw::with_advice(alloc, placed.at, sentence, None)?));
    }
    Ok(None)
}

/// The first reference that isn't const.
pub fn reference_flaw(alloc: Global, source: TokenizedText) -> Result<Option<Flaw>, AllocError> {
    for at in 1..source.tokens.len() {
        if is_plain_reference(source, at) {
            return Ok(Some(plain_reference(alloc, source, at)?));
        }
    }
    Ok(None)
}

/// The reference with this `&`, which isn't const.
fn plain_reference(alloc: Global, source: TokenizedText, at: usize) -> Result<Flaw, AllocError> {
    let name = source.shown(at.saturating_sub(1));
    let sentence = format!(in alloc; "the reference `{name} &` isn't `const`")?;
    let advice = format!(in alloc;
        "write `const {name} &` or `{name}`, which are the same type: values are copied"
    )?;
    Ok(Flaw {
        at: source.place(at),
        sentence,
        advice: Some(advice),
    })
}

/// Whether the token is the `&` of a reference without `const`.
fn is_plain_reference(source: TokenizedText, at: usize) -> bool {
    let before = source.token(at.saturating_sub(2));
    let is_const = at >= 2 && matches!(before, Some(Token::Word(Word::Const)));
    source.is(at, Symbol::Ampersand) && source.is_name(at.saturating_sub(1)) && !is_const
}

/// The first signature with more types or parameters than there may be, or binding with more formal sources. Those of a
/// certificate come after a dot.
pub fn parameters_flaw(
    alloc: Global,
    source: TokenizedText,
    is_certificate: bool,
) -> Result<Option<Flaw>, AllocError> {
    for at in 0..source.tokens.len() {
        if source.is(at, Symbol::Open) && (is_certificate || !begins_arguments(source, at)) {
            if let Some(flaw) = long_list(alloc, source, at)? {
                return Ok(Some(flaw));
            }
        }
    }
    Ok(None)
}

/// Whether `(` begins arguments: behind `emit` and a name, behind a path, or in an expression.
fn begins_arguments(source: TokenizedText, at: usize) -> bool {
    if is_of_binding(source, at) {
        return false;
    }
    let is_emitted = matches!(
        source.token(at.saturating_sub(2)),
        Some(Token::Word(Word::Emit) | Token::Symbol(Symbol::Dot))
    );
    !source.is_name(at.saturating_sub(1)) || is_emitted
}

/// Whether `(` begins the formal sources of a binding, behind its name and the property.
fn is_of_binding(source: TokenizedText, at: usize) -> bool {
    matches!(
        source.token(at.saturating_sub(5)),
        Some(Token::Word(Word::Binding))
    )
}

/// A list that begins with this `(`, and has more parts than there may be parameters.
fn long_list(alloc: Global, source: TokenizedText, at: usize) -> Result<Option<Flaw>, AllocError> {
    let list = List::of(source, at);
    let Some(excess) = list.excess else {
        return Ok(None);
    };
    let sentence = long_sentence(alloc, source, at, list.total)?;
    Ok(Some(Flaw::with_advice(alloc, source.place(excess), sentence, None)?))
}

/// That the list which begins with this `(` has so many parts.
fn long_sentence(
    alloc: Global,
    source: TokenizedText,
    at: usize,
    total: usize,
) -> Result<String, AllocError> {
    let most = MOST_PARAMETERS;
    if is_of_binding(source, at) {
        let name = source.shown(at.saturating_sub(4));
        format!(in alloc; "binding `{name}` has {total} formal sources: at most {most} may be")
    } else {
        let name = source.shown(at.saturating_sub(1));
        format!(in alloc; "`{name}` has {total} parameters: at most {most} may be")
    }
}

/// The parts of a list.
#[derive(Clone, Copy)]
struct List {
    /// How many there are.
    total: usize,
    /// The first token of the first one that is one too many.
    excess: Option<usize>,
}

impl List {
    /// The list that begins with this `(`.
    fn of(source: TokenizedText, at: usize) -> List {
        let mut list = List {
            total: 1,
            excess: None,
        };
        for inner in at..source.tokens.len() {
            if source.is(inner, Symbol::Close) {
                break;
            }
            if source.is(inner, Symbol::Comma) {
                list.total = list.total.saturating_add(1);
                if list.total > MOST_PARAMETERS && list.excess.is_none() {
                    list.excess = Some(inner.saturating_add(1));
                }
            }
        }
        list
    }
}
