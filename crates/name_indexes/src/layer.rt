//! A layer of an index of calls.

ghost use Rattle.std.specs.Prelude.{◌≡◌, ◌↔◌, [], IsTrue};
ghost use Rattle.name_indexes.specs.CallPlaces.{place_at};
ghost use Rattle.name_indexes.specs.code.Marks.{name_mark, AreMarked};

use crate::name_index::NameIndex;
use crate::name_marks::NameMarks;
use basic_types::Name;
use sqlite_items::Items;
use std::marker::Model;

/// The places of the members that a class declares itself, by their names, for each number of parameters.
pub struct Layer {
    indexes: Items<NameIndex>,
    marks: NameMarks,
}

impl Drop for Layer {
    fn drop(self) {
        let Layer {
            indexes: _,
            marks: _,
        } = self;
    }
}

impl Model for Layer {
    ghost use Rattle.std.specs.Prelude.{List, ℕ};
    ghost use Rattle.name_indexes.specs.code.Marks.{AreMarked};

    ghost Value = { List (List (List ℕ × ℕ)) };

    ghost view = { λ layer. layer.indexes };

    ghost invariant = { λ layer. AreMarked layer.marks layer.indexes };
}

impl Layer {
    /// The layer of these indexes, of whose names these are marks.
    pub fn of(indexes: Items<NameIndex>, marks: NameMarks) -> Layer
        requires { AreMarked marks indexes }
        ensures { result ≡ indexes }
    {
        Layer { indexes, marks }
    }

    /// Whether it has no index.
    pub fn is_empty(&self) -> bool
        ensures { IsTrue result ↔ (self.now ≡ []) }
    {
        self.indexes.is_empty()
    }

    /// The place of the name for so many parameters.
    #[inline(always)]
    pub fn look_up(&self, name: &Name, count: usize) -> Option<usize>
        ensures { result ≡ place_at self.now count name.now }
    {
        find_at(self.indexes.as_slice(), name, count)
    }

    /// The same by the name's mark.
    #[inline(always)]
    pub fn find(&self, name: &Name, mark: usize, count: usize) -> Option<usize>
        requires { mark ≡ name_mark name.now }
        ensures { result ≡ place_at self.now count name.now }
    {
        if self.marks.may_have(mark) {
            self.look_up(name, count)
        } else {
            None
        }
    }
}

/// The place that the name has in the index for so many parameters.
fn find_at(indexes: &[NameIndex], name: &Name, count: usize) -> Option<usize>
    ensures { result ≡ place_at indexes.now count name.now }
{
    indexes.get(count)?.find(name)
}
