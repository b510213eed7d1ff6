//! Bindings of properties, and the values that follow from them.
#![tactic(auto)]

mod ahead;
mod assigning;
mod bindings;
mod changes;
mod evaluation;
mod laws;
mod plans;
mod preparing;
mod uncounted;
mod writes;

pub use ahead::value_ahead;
pub use binding_graph::{Binding, Place, acyclic_determine};
pub use bindings::Bindings;
pub use laws::{
    adopted_agree, blocked_agree, created_agree, installed_once, left_agree, scheduled_agree,
    unbound_agree, written_once,
};
pub use plans::{
    Assignment, BindFault, ChangedPlaces, Planned, PlannedBind, PlannedGroup, PlannedWrite,
    WriteFault,
};
pub use preparing::fits;
pub use uncounted::UncountedBindings;
