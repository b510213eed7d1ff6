//! What is known of a program's classes before their bodies are loaded: each with its whole lists of members, as declared,
//! and found by name; what declared types and the names of binding sites stand for; and the offences for which a program is
//! refused.
#![tactic(auto)]

mod bases;
mod class_table;
mod fault;
mod indexed;
mod names;
mod offence;
mod outline;
mod outlining;
mod places;
mod qobject;
mod reason;
mod site_properties;
mod twin_members;
mod types;

pub use class_table::ClassTable;
pub use fault::MetaFault;
pub use indexed::{IndexedOutline, index_outlines};
pub use names::{
    names_before_expression, names_before_parameter, names_before_work, names_of_parameters,
    names_of_sig,
};
pub use offence::{Breach, Declaration, LoadFault, Member, Offence, PartFault};
pub use outline::{Heading, Outline, Sort};
pub use outlining::outline_classes;
pub use places::{Named, find};
pub use qobject::reference_to;
pub use reason::{BasePlace, ClassClash, End, Missing, Near, Reason, Repeated, Sought, Unfit};
pub use site_properties::{FoundProperty, FoundSource, property_in, source_property};
pub use types::{kind_of, read_type, read_types};
