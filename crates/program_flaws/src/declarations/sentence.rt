//! Sentences of words, names and types.

use basic_types::{Name, QType, Sig};
use diagnostics::push_printed;
use std::alloc::{AllocError, Global};
use syntax_trees::Parameter;

/// A part of a sentence. Names, types and signatures stand between backquotes.
#[derive(Clone, Copy)]
pub enum SentencePiece<'a> {
    /// Words, as they are.
    Words(&'static str),
    Name(&'a Name),
    /// A name that no program has to declare.
    Known(&'static [u8]),
    Type(&'a QType),
    Sig(&'a Sig),
    /// The signature of a method with this name and these parameters.
    Method(&'a Name, &'a [Parameter]),
    /// So many parameters, in words.
    Parameters(usize),
}

/// The sentence with these parts.
pub fn sentence(alloc: Global, pieces: &[SentencePiece]) -> Result<String, AllocError> {
    let mut text = String::new(alloc);
    push_pieces(&mut text, alloc, pieces)?;
    Ok(text)
}

/// Adds these parts.
pub fn push_pieces(
    text: &mut String,
    alloc: Global,
    pieces: &[SentencePiece],
) -> Result<(), AllocError> {
    for piece in pieces {
        push_piece(text, alloc, *piece)?;
    }
    Ok(())
}

fn push_piece(text: &mut String, alloc: Global, piece: SentencePiece) -> Result<(), AllocError> {
    match piece {
        SentencePiece::Words(words) => text.push_str(words),
        SentencePiece::Name(name) => push_quoted(text, name.bytes()),
        SentencePiece::Known(name) => push_quoted(text, name),
        SentencePiece::Type(kind) => push_type(text, alloc, kind),
        SentencePiece::Sig(sig) => push_sig(text, alloc, sig),
        SentencePiece::Method(name, parameters) => push_method(text, alloc, name, parameters),
        SentencePiece::Parameters(1) => text.push_str("1 parameter"),
        SentencePiece::Parameters(many) => write!(text, "{many} parameters"),
    }
}

/// Adds a type between backquotes.
fn push_type(text: &mut String, alloc: Global, kind: &QType) -> Result<(), AllocError> {
    let bytes = kind.text(alloc)?;
    push_quoted(text, bytes.as_slice())
}

/// Adds a signature between backquotes.
fn push_sig(text: &mut String, alloc: Global, sig: &Sig) -> Result<(), AllocError> {
    let bytes = sig.text(alloc)?;
    push_quoted(text, bytes.as_slice())
}

/// Adds bytes between backquotes.
fn push_quoted(text: &mut String, bytes: &[u8]) -> Result<(), AllocError> {
    text.push('`')?;
    push_printed(text, bytes)?;
    text.push('`')
}

/// Adds the signature of a method.
fn push_method(
    text: &mut String,
    alloc: Global,
    name: &Name,
    parameters: &[Parameter],
) -> Result<(), AllocError> {
    text.push('`')?;
    push_printed(text, name.bytes())?;
    text.push('(')?;
    for (place, parameter) in parameters.iter().enumerate() {
        if place > 0 {
            text.push(',')?;
        }
        push_kind(text, alloc, &parameter.kind)?;
    }
    text.push_str(")`")
}

/// Adds a type.
fn push_kind(text: &mut String, alloc: Global, kind: &QType) -> Result<(), AllocError> {
    let bytes = kind.text(alloc)?;
    push_printed(text, bytes.as_slice())
}
