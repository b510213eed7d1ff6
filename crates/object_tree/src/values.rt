ghost use Rattle.std.specs.Prelude.{◌≡◌, slice_get, slice_set, IfOk};
ghost use Rattle.std.specs.Option.{option_copied};
ghost use Rattle.object_tree.specs.Creating.{initials};

use basic_types::{Shared, Value};
use meta_model::MetaProperty;
use std::alloc::{AllocError, Global};
use std::marker::Model;

/// The values of an object's properties, by the properties' numbers.
#[derive(Drop)]
pub struct Values {
    items: Vec<Value>,
}

impl Model for Values {
    ghost use Rattle.std.specs.Prelude.{List};
    ghost use Rattle.basic_types.specs.declared.value.Value.{Value as AValue};

    ghost Value = { List AValue };

    ghost view = { λ values. values.items.items };
}

impl Values {
    /// The values that these properties have at first.
    pub fn initial(alloc: Global, properties: &[Shared<MetaProperty>]) -> Result<Values, AllocError>
        ensures { IfOk result (λ values. values ≡ initials properties.now) }
    {
        let mut items = Vec::with_capacity(alloc, properties.len())?;
        for property in properties {
            let value = property.get().initial.copy()?;
            items.push(value)?;
        }
        Ok(Values { items })
    }

    /// The value of the property of this number.
    pub fn get(&self, property: usize) -> Option<&Value>
        ensures { option_copied result ≡ slice_get self.now property }
    {
        self.items.get(property)
    }

    /// The values in their order.
    pub fn as_slice(&self) -> &[Value]
        ensures { result.now ≡ self.now }
    {
        self.items.as_slice()
    }

    /// Puts a value in place of that of a property; a number of no property changes nothing.
    pub fn set(&mut self, property: usize, value: Value)
        ensures { self.new ≡ slice_set self.old property value }
    {
        if property < self.items.len() {
            self.items[property] = value;
        }
    }
}
