//! What a class inherits of its base, which stands before it.

ghost use Rattle.std.specs.Prelude.{◌≡◌, slice_get};
ghost use Rattle.std.specs.Option.{option_and_then, option_copied};
ghost use Rattle.class_outlines.specs.code.OwnMembers.{methods_above, properties_above};

use crate::indexed::IndexedOutline;

/// The base of this number.
pub fn base_of(before: &[IndexedOutline], base: Option<usize>) -> Option<&IndexedOutline>
    ensures { option_copied result ≡ option_and_then (slice_get before.now) base }
{
    match base {
        Some(number) => before.get(number),
        None => None,
    }
}

/// How many methods a class inherits from the base of this number.
pub fn inherited_methods(before: &[IndexedOutline], base: Option<usize>) -> usize
    ensures { result ≡ methods_above before.now base }
{
    match base_of(before, base) {
        Some(above) => above.methods().len(),
        None => 0,
    }
}

/// How many properties a class inherits from the base of this number.
pub fn inherited_properties(before: &[IndexedOutline], base: Option<usize>) -> usize
    ensures { result ≡ properties_above before.now base }
{
    match base_of(before, base) {
        Some(above) => above.properties().len(),
        None => 0,
    }
}
