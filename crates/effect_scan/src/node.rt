//! Nodes: the members of classes.

/// A member of a class.
#[derive(Clone, Copy, Debug, PartialEq, Eq)]
pub enum Member {
    /// A method, by its number in the class.
    Method(usize),
    /// A property, by its number in the class.
    Property(usize),
    /// The destruction of an object.
    Destruction,
}

/// A member of a class, its own or an inherited one, as the objects of just this class have it.
#[derive(Clone, Copy, Debug, PartialEq, Eq)]
pub struct Node {
    /// The class, by its number.
    pub class: usize,
    /// The member.
    pub member: Member,
}
