//! The trees that texts stand for: programs, slot bodies, expressions and connections.
#![tactic(auto)]

mod connection;
mod program;
mod syntax;

pub use connection::{ConnectionType, Endpoints, has_few_types};
pub use program::{
    Class, EffectNames, Formal, Owns, Parameter, Program, Property, Signal, Site, Slot, SlotWork,
    Wire,
};
pub use syntax::{Binary, Body, Expr, Literal, Path, Root, Stmt, Unary};
