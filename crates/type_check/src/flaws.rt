//! Why something isn't typed.

use basic_types::{BOOL, INT, QSTRING, QType, Value};
use expressions::{ExprType, Names, type_of};
use meta_model::{Meta, ValueType};
use std::alloc::{AllocError, Global};
use syntax_trees::{Binary, Expr, Unary};

/// The type of something that is given.
#[derive(Clone, Copy, Debug, PartialEq, Eq)]
pub enum GivenType {
    /// `null`, which each reference type takes.
    Null,
    /// A declared type.
    Of(ValueType),
}

/// Why something isn't typed. Expressions are given by their places, from 0: an argument's among the arguments; 0 for
/// the value of a `set`, the condition of an `if` and the expression of a binding.
#[derive(Clone, Copy, Debug, PartialEq, Eq)]
pub enum TypeFault {
    /// The path of a `set`, `call`, `delete` or `later` leads behind a `const` pointer, or to no object.
    Constant,
    /// What is given at this place is of the one type, and the other is wanted.
    Mismatch(usize, GivenType, ValueType),
    /// In the expression at this place, the operator takes no operand of this type.
    Operand(usize, Unary, GivenType),
    /// In the expression at this place, the operator takes no two operands of these types.
    Operands(usize, Binary, GivenType, GivenType),
    /// The expression at this place has no type; in a program that loads each has.
    Unknown(usize),
}

/// What isn't typed in a part of a program, and why.
#[derive(Clone, Copy, Debug, PartialEq, Eq)]
pub struct TypeFlaw {
    /// The first statement of a slot's body that isn't typed, as `edge_reasons::statement_at` counts; `None` for a literal
    /// and a binding.
    pub statement: Option<usize>,
    /// Why.
    pub fault: TypeFault,
}

/// Why the expression at this place isn't of the type that is wanted, which it isn't. Its error is that memory was refused.
pub fn fault_in<P: Drop, N: Names<P>>(
    alloc: Global,
    meta: &Meta,
    place: usize,
    wanted: ValueType,
    expression: &Expr<P>,
    names: &N,
) -> Result<TypeFault, AllocError> {
    match given_in(alloc, meta, expression, names)? {
        Some(given) => Ok(TypeFault::Mismatch(place, given, wanted)),
        None => operand_fault(alloc, meta, place, expression, names),
    }
}

/// The first operator whose operands have types that it doesn't take, operands before the operator, left before right.
fn operand_fault<P: Drop, N: Names<P>>(
    alloc: Global,
    meta: &Meta,
    place: usize,
    expression: &Expr<P>,
    names: &N,
) -> Result<TypeFault, AllocError> {
    match expression {
        Expr::Unary(operator, operand) => match given_in(alloc, meta, operand.get(), names)? {
            Some(given) => Ok(TypeFault::Operand(place, *operator, given)),
            None => operand_fault(alloc, meta, place, operand.get(), names),
        },
        Expr::Binary(operator, left, right) => {
            let Some(first) = given_in(alloc, meta, left.get(), names)? else {
                return operand_fault(alloc, meta, place, left.get(), names);
            };
            match given_in(alloc, meta, right.get(), names)? {
                Some(second) => Ok(TypeFault::Operands(place, *operator, first, second)),
                None => operand_fault(alloc, meta, place, right.get(), names),
            }
        }
        Expr::Literal(_) | Expr::Path(_) => Ok(TypeFault::Unknown(place)),
    }
}

/// The type of the expression, if it has one.
fn given_in<P: Drop, N: Names<P>>(
    alloc: Global,
    meta: &Meta,
    expression: &Expr<P>,
    names: &N,
) -> Result<Option<GivenType>, AllocError> {
    match type_of(alloc, expression, names)? {
        Some(ExprType::Null) => Ok(Some(GivenType::Null)),
        Some(ExprType::Of(declared)) => Ok(numbered(meta, &declared).map(GivenType::Of)),
        None => Ok(None),
    }
}

/// The type, its class replaced by its number.
fn numbered(meta: &Meta, declared: &QType) -> Option<ValueType> {
    if declared.pointer {
        let class = meta.class(&declared.name)?;
        return Some(ValueType::Reference(class, declared.constant));
    }
    let name = declared.name.bytes();
    if name == INT {
        Some(ValueType::Int)
    } else if name == BOOL {
        Some(ValueType::Bool)
    } else if name == QSTRING {
        Some(ValueType::Text)
    } else {
        None
    }
}

/// The type of a literal.
pub fn given_by(value: &Value) -> GivenType {
    match value {
        Value::Int(_) => GivenType::Of(ValueType::Int),
        Value::Bool(_) => GivenType::Of(ValueType::Bool),
        Value::Text(_) => GivenType::Of(ValueType::Text),
        Value::Ref(_) => GivenType::Null,
    }
}
