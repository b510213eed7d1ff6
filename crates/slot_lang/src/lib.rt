//! The language of slot bodies.
#![tactic(auto)]

mod body;
mod connection;
mod deletion;
mod expression;
mod fault;
mod limits;
mod path;
mod precedence;
mod update_group;

pub use body::{block, one_answer, one_body, parse_body, value};
pub use expression::{one_expression, parse_expr};
pub use expressions::{Classes, EvalFault, ExprType, Names, World, eval, type_of};
pub use fault::BodyFault;
pub use limits::body_has_few_parameters;
pub use precedence::Precedence;
pub use syntax_trees::{
    Binary, Body, ConnectionType, Endpoints, Expr, Literal, Path, Root, Stmt, Unary,
};
pub use texts::{LexFault, Token, nesting, tokens};
pub use token_reading::ParseFault;
