//! What is found by its name and its number of parameters.

ghost use Rattle.std.specs.Prelude.{◌≡◌, ℕ, List};

use basic_types::{Name, Shared};
use syntax_trees::Property;

/// What is found by its name and its number of parameters.
pub trait Called {
    ghost name_of: { Self → List ℕ };

    ghost count_of: { Self → ℕ };

    /// Its name.
    fn called(&self) -> &Name
        ensures { result.now ≡ name_of self.now };

    /// How many parameters it has; a property has none.
    fn count(&self) -> usize
        ensures { result ≡ count_of self.now };
}

impl Called for Property {
    ghost name_of = { λ property. property.name };

    ghost count_of = { λ property. 0 };

    fn called(&self) -> &Name {
        &self.name
    }

    fn count(&self) -> usize {
        0
    }
}

impl<T: Called> Called for Shared<T> {
    ghost name_of = { T.name_of };

    ghost count_of = { T.count_of };

    fn called(&self) -> &Name {
        self.get().called()
    }

    fn count(&self) -> usize {
        self.get().count()
    }
}
