//! All classes of a program, found by name.

ghost use Rattle.std.specs.Prelude.{◌≡◌, IfOk};
ghost use Rattle.class_outlines.specs.Indexed.{IndexesNames};
ghost use Rattle.class_outlines.specs.declared.outline.Outline.{Outline};
ghost use Rattle.name_indexes.specs.Places.{IsPlace, IsFirst};

use crate::indexed::IndexedOutline;
use basic_types::Name;
use name_indexes::NameIndex;
use sqlite_items::Items;
use std::alloc::{AllocError, Global};
use std::marker::Model;

/// The classes of a program, which contracts see as their list. A class is found by its name in time that doesn't grow with
/// their number.
pub struct ClassTable {
    classes: Items<IndexedOutline>,
    names: NameIndex,
}

impl Drop for ClassTable {
    fn drop(self) {
        let ClassTable {
            classes: _,
            names: _,
        } = self;
    }
}

impl Model for ClassTable {
    ghost use Rattle.std.specs.Prelude.{List};
    ghost use Rattle.class_outlines.specs.declared.outline.Outline.{Outline};
    ghost use Rattle.class_outlines.specs.Indexed.{IndexesNames};

    ghost Value = { List Outline };

    ghost view = { λ table. table.classes };

    ghost invariant = { λ table. IndexesNames table.classes table.names };
}

impl ClassTable {
    /// These classes with an index of their names. The error is that memory was refused.
    pub fn of(alloc: Global, classes: Items<IndexedOutline>) -> Result<ClassTable, AllocError>
        ensures { IfOk result (λ table. table ≡ classes) }
    {
        let names = index_names(alloc, classes.as_slice())?;
        Ok(ClassTable { classes, names })
    }

    /// The classes by their numbers.
    pub fn as_slice(&self) -> &[IndexedOutline]
        ensures { result.now ≡ self.now }
    {
        self.classes.as_slice()
    }

    /// The first class of this name, with its number.
    pub fn find(&self, name: &Name) -> Option<(usize, &IndexedOutline)>
        ensures { IsFirst (λ (o : Outline). o.name ≡ name.now) self.now result }
    {
        let number = self.names.find(name)?;
        let class = self.classes.get(number)?;
        Some((number, class))
    }

    /// The number of the first class of this name.
    pub fn place_of(&self, name: &Name) -> Option<usize>
        ensures { IsPlace (λ (o : Outline). o.name ≡ name.now) self.now result }
    {
        self.names.find(name)
    }
}

/// The classes' numbers by their names.
fn index_names(alloc: Global, classes: &[IndexedOutline]) -> Result<NameIndex, AllocError>
    ensures { IfOk result (IndexesNames classes.now) }
{
    let mut index = NameIndex::new(alloc);
    for (number, class) in classes.iter().enumerate() {
        index.insert(class.name(), number)?;
    }
    Ok(index)
}
