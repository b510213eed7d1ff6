ghost use Rattle.std.specs.Prelude.{◌≡◌, ◌↔◌, length, IsTrue, IfOk};
ghost use Rattle.class_outlines.specs.Outlines.{heading};
ghost use Rattle.class_outlines.specs.declared.outline.Sort.TheVariants.{Signal};

use basic_types::{Name, Shared, Sig};
use name_indexes::Called;
use sqlite_items::Items;
use std::alloc::{AllocError, Global};
use syntax_trees::Property;

/// Where a method's work is in the program.
#[derive(Clone, Copy, Debug, PartialEq, Eq)]
pub enum Sort {
    /// A signal has none.
    Signal,
    /// `deleteLater()` has a body that is in no program.
    DeleteLater,
    /// A slot or native has it: the number of its class among the program's, and its place among that class's slots and
    /// natives.
    Slot(usize, usize),
}

/// A method before its types and its work are resolved.
pub struct Heading {
    /// Its name and its parameters' types, as declared.
    pub sig: Sig,
    /// Where its work stands.
    pub sort: Sort,
}

impl Drop for Heading {
    fn drop(self) {
        let Heading { sig: _, sort: _ } = self;
    }
}

impl Heading {
    /// A method with this signature, whose work stands there. The error is that memory was refused.
    pub fn shared(alloc: Global, sig: Sig, sort: Sort) -> Result<Shared<Heading>, AllocError>
        ensures { IfOk result (λ method. method ≡ heading sig sort) }
    {
        Shared::new(alloc, Heading { sig, sort })
    }

    /// Whether it is a signal's.
    pub fn is_signal(&self) -> bool
        ensures { IsTrue result ↔ (self.now.sort ≡ Signal) }
    {
        matches!(self.sort, Sort::Signal)
    }
}

impl Called for Heading {
    ghost name_of = { λ heading. heading.sig.name };

    ghost count_of = { λ heading. length heading.sig.types };

    fn called(&self) -> &Name {
        &self.sig.name
    }

    fn count(&self) -> usize {
        self.sig.types.len()
    }
}

/// A class with its whole lists of members, the inherited ones first, before their types are resolved. Its number is
/// its place among the outlines.
pub struct Outline {
    /// The class's name.
    pub name: Name,
    /// The number of its base; only `QObject`, which has the number 0, has none.
    pub base: Option<usize>,
    /// The base's methods, which it shares, then its own signals, then its own slots and natives.
    pub methods: Items<Shared<Heading>>,
    /// The base's properties, which it shares, then its own.
    pub properties: Items<Shared<Property>>,
}

impl Drop for Outline {
    fn drop(self) {
        let Outline {
            name: _,
            base: _,
            methods: _,
            properties: _,
        } = self;
    }
}
