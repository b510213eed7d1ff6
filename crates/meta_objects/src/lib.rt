//! Meta-objects: a program whose names are resolved to numbers.
#![tactic(auto)]

mod clashes;
mod laws;
mod loading;
mod member_indexes;
mod native_types;
mod notify;
mod refusal;
mod site_references;
mod unfit_types;
mod unknown_types;

pub use clashes::{duplicate_class, repeated_name};
pub use class_outlines::{Declaration, LoadFault, Member, MetaFault, Offence};
pub use laws::{one_answer, one_as_declared, one_loading};
pub use loading::{FromProgram, load};
pub use meta_model::{
    ConnectionEnd, Formula, Meta, MetaEffects, MetaEndpoints, MetaMethod, MetaObject, MetaOwns,
    MetaPath, MetaProperty, MetaRoot, MetaSite, MetaWire, SlotBody, SourceProperty, Statement,
    Step, ValueType, Wired, Work,
};
pub use notify::bad_notifier;
pub use refusal::first_offence;
pub use unfit_types::unfit_type;
