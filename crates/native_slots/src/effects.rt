//! What a native takes, and what it may read and do.

use crate::plain_type::PlainType;
use basic_types::Name;
use sqlite_items::Items;

/// A property that a native reads or writes, in its own class or one above it.
#[derive(Drop)]
pub struct PlainProperty {
    /// What it is called there.
    pub name: Name,
    /// Its type.
    pub kind: PlainType,
}

/// A signal that a native emits, of its own class or one above it.
#[derive(Drop)]
pub struct PlainSignal {
    /// What it is called there.
    pub name: Name,
    /// Its parameters' types, in their order.
    pub types: Items<PlainType>,
}

/// What a native takes, reads, emits and sets, each in the order of its declaration.
pub struct Effects {
    /// The types of its parameters.
    pub parameters: Items<PlainType>,
    /// The properties whose present values it is given.
    pub reads: Items<PlainProperty>,
    /// The signals that it may emit.
    pub emits: Items<PlainSignal>,
    /// The properties that it may write.
    pub sets: Items<PlainProperty>,
}

impl Drop for Effects {
    fn drop(self) {
        let Effects {
            parameters: _,
            reads: _,
            emits: _,
            sets: _,
        } = self;
    }
}
