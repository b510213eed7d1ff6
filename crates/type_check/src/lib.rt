//! Whether the methods of a program's wires take what their signals give, and whether its literals, bodies and bindings
//! are typed: what a run needs so that no value is missing or of a wrong type.
#![tactic(auto)]

mod accepting;
mod bodies;
mod first;
mod flaws;
mod laws;
mod members;
mod naming;
mod scope;
mod sites;
mod spot;
mod wires;

pub use first::{flaw_at, untyped};
pub use flaws::{GivenType, TypeFault, TypeFlaw};
pub use laws::typed_have_values;
pub use spot::Spot;
pub use wires::{is_fit, unfit_wire};
