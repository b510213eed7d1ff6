//! What the expressions of bindings read: the objects, where some properties are to have other values.

ghost use Rattle.std.specs.Prelude.{◌≡◌};
ghost use Rattle.std.specs.Option.{option_copied};
ghost use Rattle.expressions.specs.Evaluation.{Evaluates};
ghost use Rattle.prop_bindings.specs.Values.{values_in};
ghost use Rattle.prop_bindings.specs.Plans.{assigned};
ghost use Rattle.prop_bindings.specs.code.Parts.{value_ahead};

use crate::plans::value_near;
use basic_types::{ObjectId, Value};
use binding_graph::Place;
use expressions::{self, EvalFault};
use indexmap::IndexMap;
use meta_model::SourceProperty;
use object_tree::Tree;

/// The objects, the values that some properties are to have, and the objects that stand for the formal sources.
#[derive(Clone, Copy)]
pub struct Ahead<'w> {
    pub objects: &'w Tree,
    pub values: &'w IndexMap<(usize, usize), Value>,
    pub sources: &'w [ObjectId],
}

impl<'w> expressions::World<SourceProperty> for Ahead<'w> {
    ghost use Rattle.std.specs.Option.{option_and_then};
    ghost use Rattle.binding_graph.specs.Bindings.{source_place};
    ghost use Rattle.prop_bindings.specs.code.Parts.{value_ahead};

    ghost read = { λ w named. option_and_then (value_ahead w.values.now w.objects.now) (source_place w.sources.now named) };

    fn value(&self, named: &SourceProperty) -> Result<Value, EvalFault> {
        let Some(object) = self.sources.get(named.source) else {
            return Err(EvalFault::BadType);
        };
        let place = Place {
            object: *object,
            property: named.property,
        };
        let latest = self.values.len().saturating_sub(1);
        copy_found(value_ahead(self.objects, self.values, latest, &place))
    }
}

/// The value that a property is to have, if it is to have one, or its own. Where it is to have one, that likely stands at
/// this place among them.
#[inline(always)]
pub fn value_ahead<'w>(
    objects: &'w Tree,
    values: &'w IndexMap<(usize, usize), Value>,
    likely: usize,
    place: &Place,
) -> Option<&'w Value>
    ensures ahead { option_copied result ≡ value_ahead values.now objects.now place.now }
    ensures value { option_copied result
        ≡ values_in (assigned values.now.entries objects.now) place.now }
{
    let own = objects.value(place.object, place.property)?;
    match value_near(values, likely, place) {
        Some(value) => Some(value),
        None => Some(own),
    }
}

/// A copy of a value that was found; `BadType` where none was.
fn copy_found(found: Option<&Value>) -> Result<Value, EvalFault>
    ensures { Evaluates (option_copied found.entry) result }
{
    match found {
        Some(value) => {
            let copy = value.copy()?;
            Ok(copy)
        }
        None => Err(EvalFault::BadType),
    }
}
