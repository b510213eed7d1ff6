//! The declarations of a program.

ghost use Rattle.std.specs.Prelude.{◌≡◌, ◌<◌, ◌≤◌, [], ◌∷◌, length, OnOk};
ghost use Rattle.token_reading.specs.code.Cursor.{NotAt};
ghost use Rattle.token_reading.specs.code.Reading.{Reads, EndsAnywhere};
ghost use Rattle.texts.specs.declared.symbol.Symbol.TheVariants.{Colon};
ghost use Rattle.class_lang.specs.code.Declarations.{ReadsMembers, ReadsDeclaration, ReadsDeclarations, with_declarations, EndsDeclaration};
ghost use Rattle.class_lang.specs.Declarations.{spell_class, tree_of_class, spell_base, spell_end, tree_of_end, spell_wire, tree_of_wire, spell_owns, tree_of_owns};

use crate::members::{add_member, next_member};
use crate::sites::site;
use basic_types::{Name, Sig};
use std::alloc::AllocError;
use syntax_trees::{Class, Owns, Program, Site, Wire};
use texts::{Symbol, Word};
use token_reading::{Cursor, Landmark, ParseFault};

/// A declaration of a program.
#[derive(Drop)]
pub enum ParsedDeclaration {
    Class(Class),
    Wire(Wire),
    Owns(Owns),
    Site(Site),
}

/// Adds a declaration to the program, after those of its sort.
fn add(program: &mut Program, declaration: ParsedDeclaration) -> Result<(), AllocError>
    ensures { OnOk result (program.new ≡ with_declarations program.old (declaration ∷ [])) }
{
    match declaration {
        ParsedDeclaration::Class(class) => program.classes.push(class),
        ParsedDeclaration::Wire(wire) => program.wires.push(wire),
        ParsedDeclaration::Owns(owns) => program.owns.push(owns),
        ParsedDeclaration::Site(site) => program.sites.push(site),
    }
}

/// `[":" Name]`
fn base(cursor: &mut Cursor) -> Result<Option<Name>, ParseFault>
    ensures reads { Reads spell_base (λ base. base) (NotAt Colon) cursor.old result cursor.new }
    ensures no_longer { OnOk result (length cursor.new ≤ length cursor.old) }
{
    if cursor.eat(Symbol::Colon) {
        let base = cursor.name()?;
        Ok(Some(base))
    } else {
        Ok(None)
    }
}

/// `{member} "}"`, the members of a class with this name and base.
fn members(cursor: &mut Cursor, name: Name, base: Option<Name>) -> Result<Class, ParseFault>
    ensures reads { ReadsMembers name base cursor.old result cursor.new }
    ensures shorter { OnOk result (length cursor.new < length cursor.old) }
{
    let mut class = Class::new(cursor.alloc(), name, base);
    while !cursor.eat(Symbol::CloseBrace) {
        let member = next_member(cursor)?;
        add_member(&mut class, member)?;
    }
    Ok(class)
}

/// `Name [":" Name] "{" {member} "}" [";"]`
fn class(cursor: &mut Cursor) -> Result<Class, ParseFault>
    ensures reads { Reads spell_class tree_of_class EndsDeclaration cursor.old result cursor.new }
    ensures shorter { OnOk result (length cursor.new < length cursor.old) }
{
    let name = cursor.name()?;
    let base = base(cursor)?;
    cursor.expect(Symbol::OpenBrace)?;
    let class = members(cursor, name, base)?;
    cursor.eat(Symbol::Semicolon);
    Ok(class)
}

/// `Name sig`
fn wire_end(cursor: &mut Cursor) -> Result<(Name, Sig), ParseFault>
    ensures reads { Reads spell_end tree_of_end EndsAnywhere cursor.old result cursor.new }
    ensures shorter { OnOk result (length cursor.new < length cursor.old) }
{
    let class = cursor.name()?;
    let sig = cursor.sig()?;
    Ok((class, sig))
}

/// `end "->" end kind ";"`
fn wire(cursor: &mut Cursor) -> Result<Wire, ParseFault>
    ensures reads { Reads spell_wire tree_of_wire EndsAnywhere cursor.old result cursor.new }
    ensures shorter { OnOk result (length cursor.new < length cursor.old) }
{
    let (sender, signal) = wire_end(cursor)?;
    cursor.expect(Symbol::Arrow)?;
    let (receiver, method) = wire_end(cursor)?;
    let kind = cursor.connection_kind()?;
    cursor.expect(Symbol::Semicolon)?;
    Ok(Wire {
        sender,
        signal,
        receiver,
        method,
        kind,
    })
}

/// `Name Name ";"`
fn owns(cursor: &mut Cursor) -> Result<Owns, ParseFault>
    ensures reads { Reads spell_owns tree_of_owns EndsAnywhere cursor.old result cursor.new }
    ensures shorter { OnOk result (length cursor.new < length cursor.old) }
{
    let parent = cursor.name()?;
    let child = cursor.name()?;
    cursor.expect(Symbol::Semicolon)?;
    Ok(Owns { parent, child })
}

/// `"class" class | "wire" wire | "owns" owns | "binding" binding`
fn next_declaration(cursor: &mut Cursor) -> Result<ParsedDeclaration, ParseFault>
    ensures reads { ReadsDeclaration cursor.old result cursor.new }
    ensures shorter { OnOk result (length cursor.new < length cursor.old) }
{
    if cursor.eat_opening(Landmark::Declaration, Word::Class) {
        Ok(ParsedDeclaration::Class(class(cursor)?))
    } else if cursor.eat_opening(Landmark::Declaration, Word::Wire) {
        Ok(ParsedDeclaration::Wire(wire(cursor)?))
    } else if cursor.eat_opening(Landmark::Declaration, Word::Owns) {
        Ok(ParsedDeclaration::Owns(owns(cursor)?))
    } else if cursor.eat_opening(Landmark::Declaration, Word::Binding) {
        Ok(ParsedDeclaration::Site(site(cursor)?))
    } else {
        Err(ParseFault::Syntax)
    }
}

/// `{declaration}`, to the end.
pub fn program(cursor: &mut Cursor) -> Result<Program, ParseFault>
    ensures reads { ReadsDeclarations cursor.old result cursor.new }
    ensures at_end { OnOk result (cursor.new ≡ []) }
{
    let mut program = Program::new(cursor.alloc());
    while !cursor.is_empty() {
        let declaration = next_declaration(cursor)?;
        add(&mut program, declaration)?;
    }
    Ok(program)
}
