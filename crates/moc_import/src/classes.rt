//! What Qt's meta-object compiler writes of C++ headers, and which of its classes and members the language can have.

mod catalogue;
mod class_names;
mod fault;
mod importing;
mod kinds;
mod listing;
mod members;
mod moc;
mod plain;
mod read_classes;
mod reading;
mod scopes;

pub use catalogue::{Catalogue, Lineage, Listed, NoClass, QOBJECT};
pub use fault::ImportFault;
pub use importing::{Choice, Import, MissingMember, Placed};
pub use kinds::{LanguageType, Mapped, mapped_type};
pub use members::{
    ImportedMethod, ImportedParameter, ImportedProperty, LeftOut, Members, MethodSort, is_free,
    parameters_of,
};
pub use moc::{MocArgument, MocFile, MocMethod};
pub use plain::{push_parts, push_plain};
pub use reading::{BORDER, files};
pub use scopes::full_name;
