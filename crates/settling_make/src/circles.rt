//! Circles that don't settle.

use effect_scan::Node;

/// A circle that doesn't settle, and what stands against it.
#[derive(Clone, Copy, Debug, PartialEq, Eq)]
pub enum Circle {
    /// An edge leads from the first node to the second one, and edges lead back; the first one carries no value.
    NoValue(Node, Node),
    /// An edge leads from the first node to the second one, and edges lead back; a way between them doesn't hand its value on.
    OtherValue(Node, Node),
    /// Edges lead from the node back to it, along no property.
    NoProperty(Node),
}
