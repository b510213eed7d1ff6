//! Bindings.

ghost use Rattle.std.specs.Prelude.{◌≡◌, ◌<◌, length, OnOk};
ghost use Rattle.token_reading.specs.code.Reading.{EndsAnywhere};
ghost use Rattle.class_lang.specs.Sites.{FormalReading, spell_formal, tree_of_formal, is_bexpr, is_of_formal, is_no_null};
ghost use Rattle.class_lang.specs.code.Declarations.{ReadsFormal, ReadsSite};

use basic_types::Value;
use slot_lang::value;
use syntax_trees::{Expr, Formal, Path, Root, Site};
use texts::Symbol;
use token_reading::{Cursor, ParseFault, Part, list};

/// `Name Name "." Name "(" [formal {"," formal}] ")" "=" bexpr ";"`
pub fn site(cursor: &mut Cursor) -> Result<Site, ParseFault>
    ensures reads { ReadsSite cursor.old result cursor.new }
    ensures shorter { OnOk result (length cursor.new < length cursor.old) }
{
    let name = cursor.name()?;
    let class = cursor.name()?;
    cursor.expect(Symbol::Dot)?;
    let property = cursor.name()?;
    let formals = list::<FormalPart>(cursor)?;
    let expression = value(cursor)?;
    if !is_bexpr(&expression) {
        return Err(ParseFault::Syntax);
    }
    Ok(Site {
        name,
        class,
        property,
        formals,
        expression,
    })
}

/// `Name Name`
fn formal(cursor: &mut Cursor) -> Result<Formal, ParseFault>
    ensures reads { ReadsFormal cursor.old result cursor.new }
    ensures shorter { OnOk result (length cursor.new < length cursor.old) }
{
    let class = cursor.name()?;
    let name = cursor.name()?;
    Ok(Formal { class, name })
}

/// A formal source, as a part of a list.
struct FormalPart;

impl Part for FormalPart {
    type Tree = Formal;

    ghost Reading = { FormalReading };

    ghost spell = { spell_formal };

    ghost tree = { tree_of_formal };

    ghost Ends = { EndsAnywhere };

    fn read(cursor: &mut Cursor) -> Result<Formal, ParseFault> {
        formal(cursor)
    }
}

#[tactic(auto, using(crate::proofs::BindingSites::bexpr_equations))]
/// Whether no null is in the expression, and each of its paths is a property of a formal source.
fn is_bexpr(expression: &Expr<Path>) -> bool
    ensures { result ≡ is_bexpr expression.now }
{
    match expression {
        Expr::Literal(value) => is_no_null(value),
        Expr::Path(path) => is_of_formal(path),
        Expr::Unary(_, operand) => is_bexpr(operand.get()),
        Expr::Binary(_, left, right) => is_bexpr(left.get()) && is_bexpr(right.get()),
    }
}

fn is_no_null(value: &Value) -> bool
    ensures { result ≡ is_no_null value.now }
{
    match value {
        Value::Ref(_) => false,
        Value::Int(_) | Value::Bool(_) | Value::Text(_) => true,
    }
}

/// `Name "." Name`
fn is_of_formal(path: &Path) -> bool
    ensures { result ≡ is_of_formal path.now }
{
    match &path.root {
        Root::This => false,
        Root::Name(_) => path.properties.len() == 1,
    }
}
