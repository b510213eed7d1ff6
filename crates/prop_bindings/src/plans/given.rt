//! Values that properties are to have, by the numbers of the properties.

ghost use Rattle.std.specs.Prelude.{◌≡◌, Some, IfSome};
ghost use Rattle.std.specs.Option.{option_copied};
ghost use Rattle.indexmap.specs.IndexMap.{get};
ghost use Rattle.binding_graph.specs.code.Keys.{key_of, same_key};

use basic_types::Value;
use binding_graph::Place;
use indexmap::IndexMap;

/// The value that a property is to have; `None` where it is to have none.
pub fn value_given<'w>(
    values: &'w IndexMap<(usize, usize), Value>,
    place: &Place,
) -> Option<&'w Value>
    ensures { option_copied result ≡ get same_key values.now (key_of place.now) }
{
    values.get(&place.key())
}

/// The same, which likely stands at this place among them, or first, as that of a property that many others follow does: a
/// comparison tells that it does, and only where it doesn't it is looked up.
pub fn value_near<'w>(
    values: &'w IndexMap<(usize, usize), Value>,
    likely: usize,
    place: &Place,
) -> Option<&'w Value>
    ensures { option_copied result ≡ get same_key values.now (key_of place.now) }
{
    if let Some(value) = value_at(values, likely, place) {
        return Some(value);
    }
    match value_at(values, 0, place) {
        Some(value) => Some(value),
        None => value_given(values, place),
    }
}

/// The value at this place among them, if it is the one that the property is to have.
#[inline(always)]
fn value_at<'w>(
    values: &'w IndexMap<(usize, usize), Value>,
    position: usize,
    place: &Place,
) -> Option<&'w Value>
    ensures { IfSome result (λ value. get same_key values.now (key_of place.now) ≡ Some value.now) }
{
    let (key, value) = values.as_slice().get_index(position)?;
    if key.0 != place.object.number() || key.1 != place.property {
        return None;
    }
    Some(value)
}
