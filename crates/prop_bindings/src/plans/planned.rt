//! Writes and binds that are planned, and not carried out yet.

ghost use Rattle.std.specs.Prelude.{◌≡◌, []};
ghost use Rattle.std.specs.Option.{option_copied};
ghost use Rattle.prop_bindings.specs.Plans.{WillBe};

use crate::plans::changed_places::ChangedPlaces;
use crate::plans::given::{value_given, value_near};
use basic_types::Value;
use binding_graph::{Place, Reader};
use indexmap::IndexMap;
use sqlite_items::Items;
use std::alloc::Global;

/// What a write or a bind is to change: the values of properties, and which of them then no longer read as they did. It
/// stands for the objects and bindings for which it was planned, as long as these stay as they are.
#[derive(Drop)]
pub struct Planned {
    /// The values that properties are to have, by the numbers of the properties.
    pub values: IndexMap<(usize, usize), Value>,
    /// The properties that will no longer read as they did, in the order in which they are notified.
    pub changed: ChangedPlaces,
    /// How many expressions were evaluated for it.
    pub evaluated: usize,
}

impl Planned {
    /// Nothing is to change, and nothing was evaluated for it. This takes no memory.
    pub fn nothing(alloc: Global) -> Planned
        ensures values { result.values.entries ≡ [] }
        ensures changed { result.changed ≡ [] }
        ensures evaluated { result.evaluated ≡ 0 }
    {
        Planned {
            values: IndexMap::new(alloc),
            changed: ChangedPlaces::new(alloc),
            evaluated: 0,
        }
    }

    /// The properties that will no longer read as they did, in the order in which they are notified: those that are written
    /// or bound, if they change, then the others in the order in which their bindings were installed.
    pub fn changed(&self) -> &[Place]
        ensures { result.now ≡ self.now.changed }
    {
        self.changed.as_slice()
    }

    /// The value that the property will have; `None` where it keeps its own.
    pub fn value(&self, place: &Place) -> Option<&Value>
        ensures { WillBe self.now place.now (option_copied result) }
    {
        value_given(&self.values, place)
    }

    /// The same, which likely stands at this place among the values that properties will have: those that are written or
    /// bound come first, then mostly the others in the order in which they are notified.
    pub fn value_near(&self, likely: usize, place: &Place) -> Option<&Value>
        ensures { WillBe self.now place.now (option_copied result) }
    {
        value_near(&self.values, likely, place)
    }
}

/// A property that is to be written, and what that is to change.
#[derive(Drop)]
pub struct PlannedWrite {
    /// The property.
    pub target: Place,
    /// What the write is to change.
    pub planned: Planned,
}

impl PlannedWrite {
    /// The property that is to be written.
    pub fn target(&self) -> Place
        ensures { result ≡ self.now.target }
    {
        self.target
    }

    /// What the write is to change.
    pub fn planned(&self) -> &Planned
        ensures { result.now ≡ self.now.planned }
    {
        &self.planned
    }
}

/// Properties that are to be written at once, and what that is to change.
#[derive(Drop)]
pub struct PlannedGroup {
    /// The properties, each once, in the order in which they are written first.
    pub targets: Items<Place>,
    /// What the writes are to change.
    pub planned: Planned,
}

impl PlannedGroup {
    /// The properties that are to be written, each once, in the order in which they are written first.
    pub fn targets(&self) -> &[Place]
        ensures { result.now ≡ self.now.targets }
    {
        self.targets.as_slice()
    }

    /// What the writes are to change.
    pub fn planned(&self) -> &Planned
        ensures { result.now ≡ self.now.planned }
    {
        &self.planned
    }
}

/// A binding that is to be installed, with what it moves in the order of evaluation, and what it is to change.
#[derive(Drop)]
pub struct PlannedBind {
    /// The binding.
    pub reader: Reader,
    /// Its target and what chains of bindings lead to from there, a source before its readers. Once it is installed they
    /// are evaluated after all others.
    pub moved: Vec<Place>,
    /// What it is to change.
    pub planned: Planned,
}

impl PlannedBind {
    /// The property that is to be bound.
    pub fn target(&self) -> Place
        ensures { result ≡ self.now.reader.target }
    {
        self.reader.binding().target
    }

    /// What it is to change.
    pub fn planned(&self) -> &Planned
        ensures { result.now ≡ self.now.planned }
    {
        &self.planned
    }
}
