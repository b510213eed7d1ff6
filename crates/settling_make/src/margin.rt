//! What a component asks of the ranks and steps of its nodes.

/// What a component asks of the ranks and steps of its nodes.
#[derive(Clone, Copy)]
pub struct Margin {
    /// No rank is lower: 1 for a set, 0 for a node that is in none.
    pub least: u32,
    /// The ranks lie less than this apart: the round of a set, 1 for a node that is in none.
    pub round: u32,
    /// The step is by so much above those that the component leads to: a set's round for each of the most properties that a class
    /// has of it, 0 for a node that is in none.
    pub cost: u128,
}
