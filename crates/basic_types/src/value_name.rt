//! The names of the types of values.

ghost use Rattle.std.specs.Prelude.{◌↔◌, IsTrue};
ghost use Rattle.basic_types.specs.Types.{IsValueName};

/// The type of numbers.
pub const INT: &[u8] = b"int";

/// The type of truth values.
pub const BOOL: &[u8] = b"bool";

/// Qt's type of texts.
pub const QSTRING: &[u8] = b"QString";

/// Whether a type of values has this name.
pub fn is_value_name(name: &[u8]) -> bool
    ensures { IsTrue result ↔ IsValueName name.now }
{
    name == INT || name == BOOL || name == QSTRING
}
