//! The literals of programs.

ghost use Rattle.std.specs.Prelude.{◌≡◌, IfOk};
ghost use Rattle.meta_model.specs.Literals.{literal};

use basic_types::Value;
use std::alloc::AllocError;

/// The value of the literal: a program can't name an object, so a reference is null.
pub fn literal_of(value: &Value) -> Result<Value, AllocError>
    ensures { IfOk result (λ v. v ≡ literal value.now) }
{
    match value {
        Value::Ref(_) => Ok(Value::Ref(None)),
        _ => value.copy(),
    }
}
