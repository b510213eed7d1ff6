//! Statements and blocks.

ghost use Rattle.std.specs.Prelude.{◌≡◌, ◌<◌, ◌≤◌, ◌∷◌, length, IfOk, OnOk, Err};
ghost use Rattle.slot_lang.specs.Expressions.{tree_of_expression};
ghost use Rattle.slot_lang.specs.Grammar.{IsBody, IsNoBody, OneBody, spell_value, spell_call, tree_of_call, spell_else, tree_of_else, spell_block, tree_of_block};
ghost use Rattle.slot_lang.specs.code.Grammar.{ReadsStatement, ReadsAssignment, ReadsEmission, ReadsCondition, ReadsArguments, spell_choice, tree_of_choice, EndsStatement};
ghost use Rattle.slot_lang.specs.Reads.{ReadsBody, OneAnswer};
ghost use Rattle.token_reading.specs.code.Reading.{Reads, EndsAnywhere};
ghost use Rattle.token_reading.specs.declared.fault.ParseFault.TheVariants.{Syntax};
ghost use Rattle.texts.specs.declared.token.Token.TheVariants as token;

use crate::connection::{connection, disconnection};
use crate::deletion::{deletion, later_deletion};
use crate::expression::{Argument, expression, group};
use crate::fault::BodyFault;
use crate::limits::body_has_few_parameters;
use crate::path::target;
use crate::update_group::update_group;
use basic_types::{Name, Word};
use sqlite_items::Items;
use std::alloc::Global;
use syntax_trees::{Body, Expr, Path, Stmt};
use texts::{Symbol, Token};
use token_reading::{Cursor, Landmark, ParseFault, Wanted, has_plain_reference, list};

/// What begins a statement.
const STATEMENTS: [Wanted; 9] = [
    Wanted::Word(Word::Set),
    Wanted::Word(Word::Emit),
    Wanted::Word(Word::Call),
    Wanted::Word(Word::If),
    Wanted::Word(Word::Connect),
    Wanted::Word(Word::Disconnect),
    Wanted::Word(Word::Delete),
    Wanted::Word(Word::Later),
    Wanted::Spelled(b"group"),
];

/// Reads a slot's body, which all of the tokens are: its statements, in their order.
///
/// Of several things that are wrong with the tokens the first of these is the answer:
/// - `Syntax`: they are no body.
/// - `BadType`: a reference isn't const, as `T &`.
/// - `TooMany`: a signature in the body has more than 8 types.
///
/// `Memory`, that a growth of memory was refused, can come at any point.
pub fn parse_body(alloc: Global, tokens: &[Token]) -> Result<Body, BodyFault>
    ensures { ReadsBody tokens.now result }
{
    let body = whole_body(alloc, tokens)?;
    if has_plain_reference(tokens) {
        return Err(BodyFault::BadType);
    }
    if !body_has_few_parameters(body.as_slice()) {
        return Err(BodyFault::TooMany);
    }
    Ok(body)
}

/// Tokens have at most one answer as a body, unless memory runs out.
pub fn one_answer()
    ensures { OneAnswer }
{}

/// The body that all of the tokens are.
fn whole_body(alloc: Global, tokens: &[Token]) -> Result<Body, ParseFault>
    ensures read { IfOk result (λ body. IsBody tokens.now body) }
    ensures refused { result ≡ Err Syntax → IsNoBody tokens.now }
{
    let mut cursor = Cursor::new(alloc, tokens);
    let body = block(&mut cursor)?;
    if cursor.is_empty() {
        Ok(body)
    } else {
        Err(ParseFault::Syntax)
    }
}

/// Tokens are a slot's body in at most one way.
pub fn one_body()
    ensures { OneBody }
{}

/// A block has room at first for so many statements. Most have no more.
const MOSTLY: usize = 2;

/// Takes the block that has to come next: `{`, statements and `}`.
///
/// `Syntax` where the tokens begin with no block, and only there; `Memory` where a growth of memory was refused.
#[cycle(block)]
pub fn block(cursor: &mut Cursor) -> Result<Body, ParseFault>
    ensures reads { Reads spell_block tree_of_block EndsAnywhere cursor.old result cursor.new }
    ensures shorter { OnOk result (length cursor.new < length cursor.old) }
{
    cursor.expect(Symbol::OpenBrace)?;
    let mut found = Items::from_vec(Vec::with_capacity(cursor.alloc(), MOSTLY)?);
    while !cursor.eat(Symbol::CloseBrace) {
        let statement = statement(cursor)?;
        found.push(statement)?;
    }
    Ok(found)
}

#[cycle(block)]
fn statement(cursor: &mut Cursor) -> Result<Stmt, ParseFault>
    ensures reads { ReadsStatement cursor.old result cursor.new }
    ensures shorter { OnOk result (length cursor.new < length cursor.old) }
{
    match cursor.opening(Landmark::Statement, &STATEMENTS)? {
        Token::Word(word) => begun_by_word(cursor, *word),
        Token::Name(name) => begun_by_name(cursor, name),
        _ => Err(ParseFault::Syntax),
    }
}

/// What follows the reserved word of a statement.
#[cycle(block)]
fn begun_by_word(cursor: &mut Cursor, word: Word) -> Result<Stmt, ParseFault>
    ensures reads { ReadsStatement (token.Word word ∷ cursor.old) result cursor.new }
    ensures shorter { OnOk result (length cursor.new < length cursor.old) }
{
    match word {
        Word::Set => assignment(cursor),
        Word::Emit => emission(cursor),
        Word::Call => call(cursor),
        Word::If => choice(cursor),
        Word::Connect => connection(cursor),
        Word::Disconnect => disconnection(cursor),
        Word::Delete => deletion(cursor),
        Word::Later => later_deletion(cursor),
        _ => Err(ParseFault::Syntax),
    }
}

/// What follows the name with which a statement begins.
fn begun_by_name(cursor: &mut Cursor, name: &Name) -> Result<Stmt, ParseFault>
    ensures reads { ReadsStatement (token.Name name.now ∷ cursor.old) result cursor.new }
    ensures shorter { OnOk result (length cursor.new < length cursor.old) }
{
    if name.bytes() == b"group".as_slice() {
        update_group(cursor)
    } else {
        Err(ParseFault::Syntax)
    }
}

/// What follows `if`.
#[cycle(block)]
fn choice(cursor: &mut Cursor) -> Result<Stmt, ParseFault>
    ensures reads { Reads spell_choice tree_of_choice EndsStatement cursor.old result cursor.new }
    ensures shorter { OnOk result (length cursor.new < length cursor.old) }
{
    let condition = condition(cursor)?;
    let body = block(cursor)?;
    let other = otherwise(cursor)?;
    Ok(Stmt::If(condition, body, other))
}

/// `["else" block]`
#[cycle(block)]
fn otherwise(cursor: &mut Cursor) -> Result<Body, ParseFault>
    ensures reads { Reads spell_else tree_of_else EndsStatement cursor.old result cursor.new }
    ensures no_longer { OnOk result (length cursor.new ≤ length cursor.old) }
{
    if cursor.eat_word(Word::Else) {
        let body = block(cursor)?;
        Ok(body)
    } else {
        Ok(Items::new(cursor.alloc()))
    }
}

/// `"(" expr ")"`
fn condition(cursor: &mut Cursor) -> Result<Expr<Path>, ParseFault>
    ensures reads { ReadsCondition cursor.old result cursor.new }
    ensures shorter { OnOk result (length cursor.new < length cursor.old) }
{
    cursor.expect(Symbol::Open)?;
    let condition = group(cursor)?;
    Ok(condition)
}

/// What follows `set`.
pub fn assignment(cursor: &mut Cursor) -> Result<Stmt, ParseFault>
    ensures reads { ReadsAssignment cursor.old result cursor.new }
    ensures shorter { OnOk result (length cursor.new < length cursor.old) }
{
    let (path, property) = target(cursor)?;
    let value = value(cursor)?;
    Ok(Stmt::Set(path, property, value))
}

/// What follows `emit`.
fn emission(cursor: &mut Cursor) -> Result<Stmt, ParseFault>
    ensures reads { ReadsEmission cursor.old result cursor.new }
    ensures shorter { OnOk result (length cursor.new < length cursor.old) }
{
    let signal = cursor.name()?;
    let arguments = arguments(cursor)?;
    Ok(Stmt::Emit(signal, arguments))
}

/// What follows `call`.
fn call(cursor: &mut Cursor) -> Result<Stmt, ParseFault>
    ensures reads { Reads spell_call tree_of_call EndsAnywhere cursor.old result cursor.new }
    ensures shorter { OnOk result (length cursor.new < length cursor.old) }
{
    let (path, method) = target(cursor)?;
    let arguments = arguments(cursor)?;
    Ok(Stmt::Call(path, method, arguments))
}

/// `"=" expr ";"`
pub fn value(cursor: &mut Cursor) -> Result<Expr<Path>, ParseFault>
    ensures reads { Reads spell_value tree_of_expression EndsAnywhere cursor.old result cursor.new }
    ensures shorter { OnOk result (length cursor.new < length cursor.old) }
{
    cursor.expect(Symbol::Assign)?;
    let value = expression(cursor)?;
    cursor.expect(Symbol::Semicolon)?;
    Ok(value)
}

/// `"(" [expr {"," expr}] ")" ";"`
fn arguments(cursor: &mut Cursor) -> Result<Items<Expr<Path>>, ParseFault>
    ensures reads { ReadsArguments cursor.old result cursor.new }
    ensures shorter { OnOk result (length cursor.new < length cursor.old) }
{
    let arguments = list::<Argument>(cursor)?;
    cursor.expect(Symbol::Semicolon)?;
    Ok(arguments)
}
