//! The types of expressions.

ghost use Rattle.std.specs.Prelude.{◌≡◌, ◌↔◌, ℕ, List, Option, Some, None, IsTrue, IfOk};
ghost use Rattle.std.specs.Option.{option_and_then, option_map};
ghost use Rattle.basic_types.specs.declared.qtype.QType.{QType as AQType};
ghost use Rattle.expressions.specs.Typing.{sort_of, type_of_sort, literal_type, type_of, this_type, Accepts, TakesValues, TypedHaveValues, ThisIsTyped};

use crate::evaluation::World;
use crate::sort::{Sort, binary_sort, named_sort, unary_sort, value_sort};
use basic_types::{BOOL, INT, Name, QSTRING, QType, Value};
use std::alloc::{AllocError, Global};
use syntax_trees::Expr;

/// The type of an expression.
#[derive(Drop)]
pub enum ExprType {
    /// Of `null`, which every reference type accepts.
    Null,
    /// A declared type.
    Of(QType),
}

impl ExprType {
    /// The sort of its values; `None` for a value type other than `int`, `bool` and `QString`.
    pub fn sort(&self) -> Option<Sort>
        ensures { result ≡ sort_of self.now }
    {
        match self {
            ExprType::Null => Some(Sort::Reference),
            ExprType::Of(declared) if declared.pointer => Some(Sort::Reference),
            ExprType::Of(declared) => named_sort(&declared.name),
        }
    }
}

/// What the paths of expressions are declared as.
pub trait Names<P> {
    /// The declared type of what a path leads to, if there is one.
    ghost types: { Self → P → Option AQType };

    /// The declared type of what a path leads to, if there is one.
    fn kind(&self, path: &P) -> Result<Option<QType>, AllocError>
        ensures { IfOk result (λ found. found ≡ types self.now path.now) };
}

/// Which classes inherit which.
pub trait Classes {
    /// The first class is the second one or below it.
    ghost below: { Self → List ℕ → List ℕ → Type 0 };

    /// Whether the class is the other one or below it.
    fn inherits(&self, class: &Name, base: &Name) -> bool
        ensures { IsTrue result ↔ below self.now class.now base.now };

    /// What is below a class is below those that it is below.
    ghost along: { (classes : Self) (a b c : List ℕ) → below classes a b → below classes b c → below classes a c };
}

/// The type of an expression, for the declared types of its paths; `None` where it has none.
#[tactic(auto, using(crate::proofs::Typed::type_equations))]
pub fn type_of<P: Drop, N: Names<P>>(
    alloc: Global,
    expression: &Expr<P>,
    names: &N,
) -> Result<Option<ExprType>, AllocError>
    ensures { IfOk result (λ found. found ≡ type_of (N.types names.now) expression.now) }
{
    match expression {
        Expr::Literal(value) => literal_type(alloc, value),
        Expr::Path(path) => Ok(names.kind(path)?.map(ExprType::Of)),
        Expr::Unary(operator, operand) => {
            let Some(operand) = sort_in(type_of(alloc, operand.get(), names)?) else {
                return Ok(None);
            };
            type_of_sort(alloc, unary_sort(*operator, operand))
        }
        Expr::Binary(operator, left, right) => {
            let Some(left) = sort_in(type_of(alloc, left.get(), names)?) else {
                return Ok(None);
            };
            let Some(right) = sort_in(type_of(alloc, right.get(), names)?) else {
                return Ok(None);
            };
            type_of_sort(alloc, binary_sort(*operator, left, right))
        }
    }
}

fn sort_in(found: Option<ExprType>) -> Option<Sort>
    ensures { result ≡ option_and_then sort_of found }
{
    match found {
        Some(kind) => kind.sort(),
        None => None,
    }
}

fn literal_type(alloc: Global, value: &Value) -> Result<Option<ExprType>, AllocError>
    ensures { IfOk result (λ found. found ≡ literal_type value.now) }
{
    match value {
        Value::Ref(Some(_)) => Ok(None),
        _ => type_of_sort(alloc, Some(value_sort(value))),
    }
}

fn type_of_sort(alloc: Global, sort: Option<Sort>) -> Result<Option<ExprType>, AllocError>
    ensures { IfOk result (λ found. found ≡ option_map type_of_sort sort) }
{
    let name = match sort {
        Some(Sort::Int) => Name::new(alloc, INT)?,
        Some(Sort::Bool) => Name::new(alloc, BOOL)?,
        Some(Sort::Text) => Name::new(alloc, QSTRING)?,
        Some(Sort::Reference) => return Ok(Some(ExprType::Null)),
        None => return Ok(None),
    };
    Ok(Some(ExprType::Of(QType::value(name))))
}

/// Whether something of the declared type may be given an expression of the other type: both are the same value type,
/// or both are references, the expression's class is the declared one or below it, and the declared type is const or
/// the expression's isn't. Every reference type accepts null. What is of a type that is accepted is of the declared one.
pub fn accepts<C: Classes>(declared: &QType, given: &ExprType, classes: &C) -> bool
    ensures accepted { IsTrue result ↔ Accepts (C.below classes.now) declared.now given.now }
    ensures of_it { IsTrue result → TakesValues (C.below classes.now) declared.now given.now }
{
    takes(declared, given, classes)
}

fn takes<C: Classes>(declared: &QType, given: &ExprType, classes: &C) -> bool
    ensures { IsTrue result ↔ Accepts (C.below classes.now) declared.now given.now }
{
    match given {
        ExprType::Null => declared.pointer,
        ExprType::Of(given) if declared.pointer && given.pointer => {
            classes.inherits(&given.name, &declared.name) && (declared.constant || !given.constant)
        }
        ExprType::Of(given) => !declared.pointer && declared.is_same(given),
    }
}

/// The type of `this` in a body of this class: `C*`.
pub fn this_type(class: Name) -> QType
    ensures { result ≡ this_type class }
{
    QType::pointer_to(class, false)
}

/// Where every path with a type leads to a value of that type, every typed expression has a value, and it is of the
/// expression's type: `null`, or an object of the type's class or of one below it, where that is a reference's. So
/// `this` may stand for the object whose body it is.
pub fn typed_have_values<P: Drop, W: World<P>, N: Names<P>, C: Classes>(
    world: &W,
    names: &N,
    classes: &C,
)
    ensures values { TypedHaveValues (C.below classes.now) (W.read world.now) (N.types names.now) }
    ensures this { ThisIsTyped (C.below classes.now) }
{}
