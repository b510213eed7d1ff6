//! What has a name, in lists.

ghost use Rattle.std.specs.Prelude.{◌≡◌, ◌↔◌, ℕ, List, IsTrue, Some};
ghost use Rattle.name_indexes.specs.Places.{IsFirst};

use crate::outline::Outline;
use basic_types::Name;
use syntax_trees::{Formal, Parameter};

/// What may have a name.
pub trait Named {
    ghost has_name: { Self → List ℕ → Type 0 };

    /// Whether it has this name.
    fn is_named(&self, name: &Name) -> bool
        ensures { IsTrue result ↔ has_name self.now name.now };
}

impl Named for Outline {
    ghost has_name = { λ class name. class.name ≡ name };

    fn is_named(&self, name: &Name) -> bool {
        name.is_same(&self.name)
    }
}

impl Named for Formal {
    ghost has_name = { λ formal name. formal.name ≡ name };

    fn is_named(&self, name: &Name) -> bool {
        name.is_same(&self.name)
    }
}

impl Named for Parameter {
    ghost has_name = { λ parameter name. parameter.name ≡ Some name };

    fn is_named(&self, name: &Name) -> bool {
        match &self.name {
            Some(own) => own.is_same(name),
            None => false,
        }
    }
}

/// The first item of this name, with its place.
pub fn find<'a, T: Named>(items: &'a [T], name: &Name) -> Option<(usize, &'a T)>
    ensures { IsFirst (λ item. T.has_name item name.now) items.now result }
{
    for (place, item) in items.iter().enumerate() {
        if item.is_named(name) {
            return Some((place, item));
        }
    }
    None
}
