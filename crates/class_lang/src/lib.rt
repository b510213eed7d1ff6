//! Class declarations: from a text to a program.
#![tactic(auto)]

mod declarations;
mod fault;
mod limits;
mod members;
mod names;
mod natives;
mod parameters;
mod reader;
mod sites;
mod size;

pub use fault::TextFault;
pub use reader::{one_answer, one_reading, program_trail, read_program, read_within};
pub use size::Limits;
pub use syntax_trees::{
    Binary, Body, Class, ConnectionType, EffectNames, Endpoints, Expr, Formal, Literal, Owns,
    Parameter, Path, Program, Property, Root, Signal, Site, Slot, SlotWork, Stmt, Unary, Wire,
};
