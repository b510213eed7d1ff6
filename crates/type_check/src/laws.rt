//! What typed programs promise of their runs.

ghost use Rattle.type_check.specs.Laws.{GivenHaveValues, ArgumentsHaveValues, BindingsHaveValues};

use meta_model::Meta;

/// In every state where what they read has its declared type, a typed expression of a body, the arguments of a typed call,
/// and the expression of a typed binding have values, each of the type of what it is given to. So a typed statement doesn't
/// lack a value that it needs.
pub fn typed_have_values(meta: &Meta)
    ensures bodies { GivenHaveValues meta.now }
    ensures arguments { ArgumentsHaveValues meta.now }
    ensures bindings { BindingsHaveValues meta.now }
{
    let _classes = meta.classes();
}
