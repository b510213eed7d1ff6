//! Calls of methods.

ghost use Rattle.std.specs.Prelude.{◌≡◌, take};

use basic_types::{ObjectId, Value};

/// A call of an object's method, which is a signal or a slot.
#[derive(Clone, Copy)]
pub struct MethodCall<'a> {
    /// The object whose method it is.
    pub object: ObjectId,
    /// The method's number in the object's class.
    pub method: usize,
    /// The values that the method is given.
    pub arguments: &'a [Value],
}

/// As many of the arguments as a method declares.
pub fn front(arguments: &[Value], count: usize) -> &[Value]
    ensures { result.now ≡ take count arguments.now }
{
    if count < arguments.len() {
        &arguments[..count]
    } else {
        arguments
    }
}
