//! Values that properties are to have.

use basic_types::Value;
use binding_graph::Place;

/// A property is to have this value.
#[derive(Drop)]
pub struct Assignment {
    /// The property.
    pub place: Place,
    /// The value.
    pub value: Value,
}
