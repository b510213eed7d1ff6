ghost use Rattle.std.specs.Prelude.{◌≡◌};
ghost use Rattle.native_slots.specs.Plain.{kind_of};

use meta_model::ValueType;

/// A type of which no value refers to an object. A native takes, reads and gives only values of these types.
#[derive(Clone, Copy, Debug, PartialEq, Eq)]
pub enum PlainType {
    /// `int`
    Int,
    /// `bool`
    Bool,
    /// `QString`
    Text,
}

impl PlainType {
    /// The same type, as those of a loaded program's members are.
    pub fn kind(self) -> ValueType
        ensures { result ≡ kind_of self }
    {
        match self {
            PlainType::Int => ValueType::Int,
            PlainType::Bool => ValueType::Bool,
            PlainType::Text => ValueType::Text,
        }
    }
}
