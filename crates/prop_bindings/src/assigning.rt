//! Values that properties are given at once.

ghost use Rattle.std.specs.Prelude.{◌≡◌};
ghost use Rattle.prop_bindings.specs.code.Parts.{ahead};

use basic_types::{ObjectId, Value};
use indexmap::IndexMap;
use object_tree::Tree;

/// Gives properties their values. It takes no memory.
pub fn assign(tree: &mut Tree, values: IndexMap<(usize, usize), Value>)
    ensures { tree.new ≡ ahead values tree.old }
{
    let mut rest = values.into_iter();
    while let Some((key, value)) = rest.next_back() {
        tree.set_value(ObjectId::new(key.0), key.1, value);
    }
}
