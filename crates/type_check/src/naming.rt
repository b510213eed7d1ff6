//! The types of a program, by their names.

ghost use Rattle.std.specs.Prelude.{◌≡◌, IfOk, Some};
ghost use Rattle.basic_types.specs.Name.{IsName};
ghost use Rattle.basic_types.specs.Types.{value_type};
ghost use Rattle.type_check.specs.Naming.{spelled};

use basic_types::{BOOL, INT, Name, QSTRING, QType};
use expressions::Classes;
use meta_model::{Meta, ValueType};
use std::alloc::{AllocError, Global};

/// The classes of a program, by their names.
#[derive(Clone, Copy)]
pub struct ClassNames<'m> {
    pub meta: &'m Meta,
}

impl<'m> Classes for ClassNames<'m> {
    ghost use Rattle.type_check.specs.Naming.{BelowNamed};
    ghost use Rattle.type_check.specs.Along.{along};

    ghost below = { λ names. BelowNamed names.meta.now };

    ghost along = { λ names. along names.meta.now };

    fn inherits(&self, class: &Name, base: &Name) -> bool {
        let Some(class) = self.meta.class(class) else {
            return false;
        };
        match self.meta.class(base) {
            Some(base) => self.meta.inherits(class, base),
            None => false,
        }
    }
}

/// The type as it is declared; `None` where it names a class that isn't there. Its error is that memory was refused.
pub fn spelled(alloc: Global, meta: &Meta, kind: ValueType) -> Result<Option<QType>, AllocError>
    ensures { IfOk result (λ found. found ≡ spelled meta.now kind) }
{
    let (class, constant) = match kind {
        ValueType::Int => return value_type(alloc, INT),
        ValueType::Bool => return value_type(alloc, BOOL),
        ValueType::Text => return value_type(alloc, QSTRING),
        ValueType::Reference(class, constant) => (class, constant),
    };
    let Some(class) = meta.object(class) else {
        return Ok(None);
    };
    let name = class.name.copy()?;
    Ok(Some(QType::pointer_to(name, constant)))
}

/// The value type of this name.
fn value_type(alloc: Global, name: &[u8]) -> Result<Option<QType>, AllocError>
    requires { IsName name.now }
    ensures { IfOk result (λ found. found ≡ Some (value_type name.now)) }
{
    let name = Name::new(alloc, name)?;
    Ok(Some(QType::value(name)))
}
