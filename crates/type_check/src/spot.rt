//! What may be ill-typed.

use effect_scan::Node;

/// A part of a program that may be ill-typed.
#[derive(Clone, Copy, Debug, PartialEq, Eq)]
pub enum Spot {
    /// A slot whose body isn't typed, or a property whose literal isn't of its type.
    Node(Node),
    /// A binding site, by its number: its expression isn't of its target's type.
    Binding(usize),
}
