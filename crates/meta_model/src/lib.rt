//! What a loaded program is: its classes with all their members, those of `QObject` first, its wires, owns and binding
//! sites, by number; and what is looked up in it.
#![tactic(auto)]

mod class_index;
mod class_places;
mod effects;
mod meta;
mod object;
mod qobject;
mod root;
mod site;
mod slot_body;

pub use class_index::MemberIndex;
pub use effects::MetaEffects;
pub use meta::{ConnectionEnd, Meta, Wired};
pub use name_indexes::{CallIndex, NameIndex};
pub use object::{
    MetaEndpoints, MetaMethod, MetaObject, MetaOwns, MetaPath, MetaProperty, MetaRoot, MetaWire,
    Statement, Step, ValueType, Work,
};
pub use qobject::{
    DELETE_LATER, DESTROYED, DESTROYED_ALONE, OBJECT_NAME, OBJECT_NAME_CHANGED, QOBJECT,
};
pub use root::delete_later_body;
pub use site::{Formula, MetaSite, SourceProperty};
pub use slot_body::SlotBody;
