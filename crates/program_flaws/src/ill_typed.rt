//! Literals, bodies and bindings that aren't typed.

use crate::names::{class_text, node_text, property_text, text_of, type_text};
use crate::source::ProgramSource;
use crate::statement::{BodyContext, statement_of};
use edge_reasons::Numbered;
use effect_scan::{Member, Node};
use meta_model::Statement;
use std::alloc::AllocError;
use type_check::{Spot, TypeFlaw};

/// What isn't typed at the spot, which has this flaw, and what has to be of which type.
pub fn flaw_text(
    source: ProgramSource<'_>,
    spot: Spot,
    flaw: TypeFlaw,
) -> Result<String, AllocError> {
    match spot {
        Spot::Node(node) => match node.member {
            Member::Method(_) => body_text(source, node, flaw.statement),
            Member::Property(property) => literal_text(source, node, property),
            Member::Destruction => Ok(String::new(source.alloc)),
        },
        Spot::Binding(place) => binding_text(source, place),
    }
}

/// A property whose value at first isn't of its type.
fn literal_text(
    source: ProgramSource<'_>,
    node: Node,
    property: usize,
) -> Result<String, AllocError> {
    let alloc = source.alloc;
    let name = node_text(alloc, source.meta, node)?;
    let kind = declared_text(source, node.class, property)?;
    format!(in alloc;
        "the first value of `{name}` isn't of its type `{kind}`\nhelp: give it a literal of that type, or none\n"
    )
}

/// The type that a property is declared with.
fn declared_text(
    source: ProgramSource<'_>,
    class: usize,
    property: usize,
) -> Result<String, AllocError> {
    if let Some(object) = source.meta.object(class) {
        if let Some(found) = object.property(property) {
            return type_text(source.alloc, &found.declared);
        }
    }
    Ok(String::new(source.alloc))
}

/// A binding whose expression isn't of its target's type.
fn binding_text(source: ProgramSource<'_>, place: usize) -> Result<String, AllocError> {
    let alloc = source.alloc;
    let Some(site) = source.meta.site_at(place) else {
        return Ok(String::new(alloc));
    };
    let name = text_of(alloc, site.name.bytes())?;
    let class = class_text(alloc, source.meta, site.class)?;
    let property = property_text(alloc, source.meta, Some(site.class), site.property)?;
    let kind = declared_text(source, site.class, site.property)?;
    format!(in alloc;
        "the expression of the binding `{name}` isn't of the type of `{class}.{property}`, which is `{kind}`\nhelp: arithmetic and `<` take numbers, `&&`, `||` and `!` truth values, `==` two values of one type\n"
    )
}

/// A slot whose body isn't typed: the statement of this number, which is the first that isn't.
fn body_text(
    source: ProgramSource<'_>,
    node: Node,
    statement: Option<usize>,
) -> Result<String, AllocError> {
    if let Some(number) = statement {
        if let Some((body, flawed)) = statement_of(source, node, number) {
            return statement_text(body, node, flawed);
        }
    }
    let name = node_text(source.alloc, source.meta, node)?;
    format!(in source.alloc; "the body of `{name}` isn't typed\n")
}

/// That the statement isn't typed, which is one of the node's body.
fn statement_text(
    body: BodyContext<'_>,
    node: Node,
    flawed: Numbered<'_>,
) -> Result<String, AllocError> {
    let alloc = body.source.alloc;
    let name = node_text(alloc, body.source.meta, node)?;
    let number = flawed.place.saturating_add(1);
    let spelled = body.statement_text(flawed.statement)?;
    let advice = advice_for(flawed.statement);
    if flawed.is_inner {
        return format!(in alloc;
            "`{spelled}` in statement {number} of the body of `{name}` isn't typed\nhelp: {advice}\n"
        );
    }
    format!(in alloc;
        "statement {number} of the body of `{name}`, `{spelled}`, isn't typed\nhelp: {advice}\n"
    )
}

/// What to write in a statement of this sort.
fn advice_for(statement: &Statement) -> &'static str {
    match statement {
        Statement::Set(_, _, _) =>
            "the value has to be of the property's type, and the path not behind a `const` pointer",
        Statement::Emit(_, _) => "each argument has to be of its parameter's type",
        Statement::Call(_, _, _) =>
            "each argument has to be of its parameter's type, and the path not behind a `const` pointer",
        Statement::If(_, _, _) => "the condition has to be a truth value",
        Statement::Delete(_) | Statement::Later(_) =>
            "an object behind a `const` pointer can't be deleted",
        Statement::Connect(_, _) | Statement::Disconnect(_) | Statement::Group(_) => "",
    }
}
