//! The trees of slot bodies.

ghost use Rattle.std.specs.Prelude.{◌≡◌, IfOk};
ghost use Rattle.syntax_trees.specs.Literals.{literal_value};

use crate::connection::{ConnectionType, Endpoints};
use basic_types::{Name, Text, Value};
use sqlite_items::{Boxed, Items};
use std::alloc::AllocError;

/// An operator in front of its operand.
#[derive(Clone, Copy, Debug, PartialEq, Eq)]
pub enum Unary {
    /// `!`
    Not,
    /// `-`
    Minus,
}

/// An operator between its operands.
#[derive(Clone, Copy, Debug, PartialEq, Eq)]
pub enum Binary {
    /// `+`
    Add,
    /// `-`
    Subtract,
    /// `*`
    Multiply,
    /// `<`
    Less,
    /// `<=`
    AtMost,
    /// `>`
    Greater,
    /// `>=`
    AtLeast,
    /// `==`
    Equal,
    /// `!=`
    Different,
    /// `&&`
    And,
    /// `||`
    Or,
}

/// A literal, as programs and scripts write it; it refers to no object.
#[derive(Drop)]
pub enum Literal {
    /// A number of 32 bits.
    Int(i32),
    /// A truth value.
    Bool(bool),
    /// A text of at most 255 bytes.
    Text(Text),
    /// The reference to no object.
    Null,
}

impl Literal {
    /// An equal literal, which takes no memory: a text is shared.
    pub fn copy(&self) -> Result<Literal, AllocError>
        ensures { IfOk result (λ copy. copy ≡ self.now) }
    {
        match self {
            Literal::Int(number) => Ok(Literal::Int(*number)),
            Literal::Bool(truth) => Ok(Literal::Bool(*truth)),
            Literal::Text(text) => Ok(Literal::Text(text.copy()?)),
            Literal::Null => Ok(Literal::Null),
        }
    }

    /// The value that it stands for, which takes no memory: a text is shared.
    pub fn value(&self) -> Result<Value, AllocError>
        ensures { IfOk result (λ value. value ≡ literal_value self.now) }
    {
        let literal = self.copy()?;
        Ok(literal.into_value())
    }

    /// The value that it stands for.
    pub fn into_value(self) -> Value
        ensures { result ≡ literal_value self }
    {
        match self {
            Literal::Int(number) => Value::Int(number),
            Literal::Bool(truth) => Value::Bool(truth),
            Literal::Text(text) => Value::Text(text),
            Literal::Null => Value::Ref(None),
        }
    }
}

/// An expression, whose paths are of type P: as they are spelled, or with their names resolved.
#[derive(Drop)]
pub enum Expr<P: Drop> {
    /// A number from 0 to 2147483647, a truth value, a text or null.
    Literal(Value),
    /// What a path leads to.
    Path(P),
    /// An operator and its operand.
    Unary(Unary, Boxed<Expr<P>>),
    /// An operator and its operands, the left one first.
    Binary(Binary, Boxed<Expr<P>>, Boxed<Expr<P>>),
}

/// Where a path begins.
#[derive(Drop)]
pub enum Root {
    /// `this`, the object whose slot it is.
    This,
    /// A parameter of the slot, by its name.
    Name(Name),
}

/// `this.a.b` or `p.a.b`: a root, and the properties that lead on from it.
#[derive(Drop)]
pub struct Path {
    /// Where it begins.
    pub root: Root,
    /// The names of the properties, in their order; there may be none.
    pub properties: Items<Name>,
}

/// A statement of a slot's body.
#[derive(Drop)]
pub enum Stmt {
    /// `set path.p = e;`: the object's path, the property's name and its new value.
    Set(Path, Name, Expr<Path>),
    /// `emit s(e, ..);`: the signal's name and the arguments.
    Emit(Name, Items<Expr<Path>>),
    /// `call path.m(e, ..);`: the object's path, the method's name and the arguments.
    Call(Path, Name, Items<Expr<Path>>),
    /// `if (e) { .. } else { .. }`: the condition, what is done where it holds, and what where it doesn't.
    If(Expr<Path>, Items<Stmt>, Items<Stmt>),
    /// `connect path, s(T, ..), path, m(T, ..), kind, unique, single;`: what is connected, and how.
    Connect(Endpoints<Path>, ConnectionType),
    /// `disconnect path, s(T, ..), path, m(T, ..);`: what is no longer connected.
    Disconnect(Endpoints<Path>),
    /// `delete path;`: the path of the object that is destroyed.
    Delete(Path),
    /// `later path;`: the path of the object whose deletion is scheduled.
    Later(Path),
    /// `group { set path.p = e; .. }`: its sets, at least one, each a `Set`.
    Group(Items<Stmt>),
}

/// The statements of a block, in their order.
pub type Body = Items<Stmt>;
