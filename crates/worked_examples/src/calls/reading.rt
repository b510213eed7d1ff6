//! The trees and tokens that texts stand for, normal forms, the types and values of expressions, and traces in colours. What has
//! to be written was worked out by hand from docs/language.md, and of traces from docs/traces.md.

mod values;

use anyhow::{Result, anyhow};
use signatures::normalise;
use slot_lang::{Body, Expr, Root, Stmt, nesting, parse_body, tokens};
use std::alloc::Global;
use std::str;
use traces::show_trace;

/// A body with one statement of each word that has parts.
const BODIES: &[&str] = &[
    "{ set p.q.r = 1; emit s(1, v); call this.m(); if (b) { emit s(); delete this; } else { } }",
    "{ group { set p.q = 1; set this.r = 2; } }",
];

/// Texts that are signatures.
const SIGNATURES: &[&str] = &[
    "done( const  QString & )",
    "f(Cell const *, int const)",
    " f ( ) ",
    "f\t(\r\nCell\n*,const constant)",
];

/// Texts that aren't.
const NO_SIGNATURES: &[&str] = &[
    "(int)",
    "f(int",
    "set(int)",
    "f(QString &)",
    "f(int,,int)",
    "f(const int const)",
    "f(this)",
    "f(int,int,int,int,int,int,int,int,int)",
];

const TRACE: &str = "event 3\n1 call a.m()\nevent 4 refused 32\nno trace\n";

const COLOURED: &str =
    "\x1b[1mevent 3\x1b[0m\n  \x1b[32m1 call a.m()\x1b[0m\n\x1b[1;31mevent 4 refused 32\x1b[0m  -- the object of this name is dead\nno trace\n";

/// Writes what texts stand for.
pub fn tell_reading<R: Print + AllocGlobal>(rt: &R) -> Result<()> {
    tell_assignment(rt)?;
    for text in BODIES.iter().copied() {
        tell_statements(rt, text)?;
    }
    tell_tokens(rt)?;
    for text in SIGNATURES.iter().copied() {
        tell_normal_form(rt, text)?;
    }
    for text in NO_SIGNATURES.iter().copied() {
        tell_refusal(rt, text)?;
    }
    values::tell_expressions(rt)?;
    tell_colours(rt)
}

/// The body that a text stands for.
fn body_of(alloc: Global, text: &str) -> Result<Body> {
    let tokens = tokens(alloc, text.as_bytes())?;
    let body = parse_body(alloc, tokens.as_slice())?;
    Ok(body)
}

/// Writes what a statement sets, and to what.
fn tell_assignment<R: Print + AllocGlobal>(rt: &R) -> Result<()> {
    let body = body_of(rt.alloc(), "{ set this.value = v; }")?;
    let Some(Stmt::Set(path, name, Expr::Path(value))) = body.get(0) else {
        return Err(anyhow!("the statement sets no property to what a path leads to"));
    };
    let Root::Name(parameter) = &value.root else {
        return Err(anyhow!("the path begins with no parameter"));
    };
    println!(rt;
        "`{}` of this object: {}, with {} properties; to `{}`, with {}",
        str::from_utf8(name.bytes())?,
        matches!(&path.root, Root::This),
        path.properties.len(),
        str::from_utf8(parameter.bytes())?,
        value.properties.len()
    )?;
    Ok(())
}

/// The word of a statement, the name of its member, and how many arguments or properties of its path it has; of an `if` how
/// many statements are in its first block, and of a `group` how many sets are in it.
fn parts(statement: &Stmt) -> (&'static str, &[u8], usize) {
    match statement {
        Stmt::Set(path, name, _) => ("set", name.bytes(), path.properties.len()),
        Stmt::Emit(name, arguments) => ("emit", name.bytes(), arguments.len()),
        Stmt::Call(_, name, arguments) => ("call", name.bytes(), arguments.len()),
        Stmt::If(_, yes, _) => ("if", b"", yes.len()),
        Stmt::Group(sets) => ("group", b"", sets.len()),
        _ => ("another", b"", 0),
    }
}

/// Writes of which parts a body's statements are made.
fn tell_statements<R: Print + AllocGlobal>(rt: &R, text: &str) -> Result<()> {
    let body = body_of(rt.alloc(), text)?;
    println!(rt; "Statements: {}", body.len())?;
    for statement in body.as_slice() {
        let (word, name, count) = parts(statement);
        println!(rt; "{word} `{}` {count}", str::from_utf8(name)?)?;
    }
    Ok(())
}

/// Writes how many tokens a text is cut into, and whether what is open at once is too much.
fn tell_tokens<R: Print + AllocGlobal>(rt: &R) -> Result<()> {
    let cut = tokens(rt.alloc(), b"set this.v = v+1;// \xC8".as_slice())?;
    println!(rt;
        "{} tokens, too deep: {}",
        cut.len(),
        nesting(cut.as_slice())
    )?;
    let is_refused = tokens(rt.alloc(), b"\xC8".as_slice()).is_err();
    println!(rt; "A byte that begins no token is refused: {is_refused}")?;
    let deepest = tokens(rt.alloc(), "((((((((((((((((((((((((((((((((".as_bytes())?;
    println!(rt;
        "{} open, too deep: {}",
        deepest.len(),
        nesting(deepest.as_slice())
    )?;
    let deeper = tokens(rt.alloc(), "(((((((((((((((((((((((((((((((((".as_bytes())?;
    println!(rt;
        "{} open, too deep: {}",
        deeper.len(),
        nesting(deeper.as_slice())
    )?;
    Ok(())
}

/// Writes the normal form of a signature.
fn tell_normal_form<R: Print + AllocGlobal>(rt: &R, text: &str) -> Result<()> {
    let sig = normalise(rt.alloc(), text)?;
    let normal = sig.text(rt.alloc())?;
    println!(rt; "{}", str::from_utf8(normal.as_slice())?)?;
    Ok(())
}

/// Writes the number that a text is refused with that is no signature.
fn tell_refusal<R: Print + AllocGlobal>(rt: &R, text: &str) -> Result<()> {
    let fault = normalise(rt.alloc(), text).err();
    match fault.and_then(|fault| fault.number()) {
        Some(number) => println!(rt; "{text}: {number}")?,
        None => println!(rt; "{text}: no number")?,
    }
    Ok(())
}

/// Writes whether the lines of a trace have their colours. In black and white `trace_view` is run by its stored example.
fn tell_colours<R: Print + AllocGlobal>(rt: &R) -> Result<()> {
    let mut reader = TRACE.as_bytes();
    let mut shown = Vec::new(rt.alloc());
    show_trace(rt.alloc(), &mut reader, &mut shown, true)?;
    println!(rt;
        "A trace has its colours: {}",
        shown.as_slice() == COLOURED.as_bytes()
    )?;
    Ok(())
}
