//! From a text to its program.

ghost use Rattle.std.specs.Prelude.{◌≡◌, ℕ, List, Err, IfOk};
ghost use Rattle.token_reading.specs.declared.fault.ParseFault.TheVariants.{Syntax};
ghost use Rattle.texts.specs.declared.token.Token.{Token};
ghost use Rattle.class_lang.specs.Declarations.{IsProgram};
ghost use Rattle.class_lang.specs.Reads.{ReadsProgram, ReadsWithin, IsNoProgram, HasOneReading, HasOneProgram, HasOneAnswer};

use crate::declarations::program;
use crate::fault::TextFault;
use crate::limits::{has_few_parameters, is_within_limits};
use crate::size::Limits;
use std::alloc::Global;
use syntax_trees::Program;
use texts::{Token, nesting, tokens};
use token_reading::{Cursor, ParseFault, Trail, has_plain_reference};

/// Reads a program from its text: at most 1,048,576 bytes, in time that grows as the text does.
///
/// Of several things that are wrong with a text the first of these is the answer:
/// - `TooLarge`: it has more than 1,048,576 bytes.
/// - `BadByte`: a byte begins no token, or a text literal isn't closed in its line.
/// - `TooDeepText`: more than 32 of `(` and `{` are open at once, or more than 200 tokens stand together without `;`,
///   `{` or `}`.
/// - `Syntax`: the tokens are no program.
/// - `BadType`: a reference isn't const, as `T &`.
/// - `TooMany`: a signal, a slot, a native, a signature of a wire, in a body, or after `notify` or `emits` has more than
///   8 parameters, or a binding more than 8 formal sources.
/// - `TooLarge`: there are more than 256 classes, 64 natives, 1,000 wires, 1,000 owns or 1,000 bindings, or a class has
///   more than 64 signals, slots and natives or more than 32 properties.
///
/// `Memory`, that a growth of memory was refused, can come at any point.
pub fn read_program(alloc: Global, bytes: &[u8]) -> Result<Program, TextFault>
    ensures { ReadsProgram bytes.now result }
{
    read_within(alloc, Limits::standard(), bytes)
}

/// Reads a program as [`read_program`] does, by these limits in the place of the standard ones: `TooLarge` is the answer for a
/// text, and for a program, that is larger than they say.
pub fn read_within(alloc: Global, limits: Limits, bytes: &[u8]) -> Result<Program, TextFault>
    ensures { ReadsWithin limits bytes.now result }
{
    if bytes.len() > limits.bytes {
        return Err(TextFault::TooLarge);
    }
    let tokens = tokens(alloc, bytes)?;
    if nesting(tokens.as_slice()) {
        return Err(TextFault::TooDeepText);
    }
    let program = parse(alloc, tokens.as_slice())?;
    if has_plain_reference(tokens.as_slice()) {
        return Err(TextFault::BadType);
    }
    if !has_few_parameters(&program) {
        return Err(TextFault::TooMany);
    }
    if !is_within_limits(&program, limits) {
        return Err(TextFault::TooLarge);
    }
    Ok(program)
}

/// The program that the tokens are.
fn parse(alloc: Global, tokens: &[Token]) -> Result<Program, ParseFault>
    ensures read { IfOk result (λ program. IsProgram tokens.now program) }
    ensures refused { result ≡ Err Syntax → IsNoProgram tokens.now }
{
    program(&mut Cursor::new(alloc, tokens))
}

/// The way of the reader of programs through the tokens: where the declarations, the members and the statements begin, and
/// what was looked for where it came farthest.
pub fn program_trail(alloc: Global, tokens: &[Token]) -> Option<Trail> {
    let mut cursor = Cursor::recording(alloc, tokens);
    let _ = program(&mut cursor);
    cursor.into_trail()
}

/// Tokens, and so a text, are at most one program.
pub fn one_reading()
    ensures tokens { (tokens : List Token) → HasOneReading tokens }
    ensures text { (bytes : List ℕ) → HasOneProgram bytes }
{}

/// A text has at most one answer, unless memory runs out.
pub fn one_answer()
    ensures { (bytes : List ℕ) → HasOneAnswer bytes }
{}
