use basic_types::{Arguments, Value};

/// The most actions that a native answers at once.
pub const MOST_ACTIONS: usize = 64;

/// What a native asks for. An answer is a list of them, which are done in their order.
#[derive(Drop)]
pub enum Action {
    /// An emission of a signal of its object, by its place from 0 in the list of signals that it may emit, with these
    /// arguments.
    Emit(usize, Arguments),
    /// A write of a property of its object, by its place from 0 in the list of properties that it may write.
    Set(usize, Value),
}
