//! Which names an index may have.

ghost use Rattle.std.specs.Prelude.{◌≡◌, ℕ, true, get_or};
ghost use Rattle.name_indexes.specs.code.Marks.{name_mark};

use basic_types::Name;
use std::alloc::{AllocError, Global};
use std::hash::{FoldHasher, Hasher};
use std::marker::Model;

/// So many marks there are.
const MARKS: usize = 512;

/// Fewer names than these have no marks.
const FEW: usize = 4;

/// Marks of the names of an index, of which several may have one mark: most names that the index doesn't have are told from
/// those that it has without a look into it. Where there are no marks, each may be there.
pub struct NameMarks {
    marks: Vec<bool>,
}

impl Drop for NameMarks {
    fn drop(self) {
        let NameMarks { marks: _ } = self;
    }
}

impl Model for NameMarks {
    ghost use Rattle.std.specs.Prelude.{List, Bool};

    ghost Value = { List Bool };

    ghost view = { λ marks. marks.marks.items };
}

impl NameMarks {
    /// No marks of names, of which there will be so many. The error is that memory was refused.
    pub fn none(alloc: Global, names: usize) -> Result<NameMarks, AllocError> {
        if names < FEW {
            return Ok(NameMarks {
                marks: Vec::new(alloc),
            });
        }
        let marks = Vec::from_elem(alloc, false, MARKS)?;
        Ok(NameMarks { marks })
    }

    /// Whether a name of this mark may be there.
    #[inline(always)]
    pub fn may_have(&self, mark: usize) -> bool
        ensures { result ≡ get_or self.now mark true }
    {
        match self.marks.get(mark) {
            Some(is_there) => *is_there,
            None => true,
        }
    }

    /// Puts the mark of a name in.
    #[inline(always)]
    pub fn put(&mut self, mark: usize)
        ensures there { get_or self.new mark true ≡ true }
        ensures kept { (k : ℕ) → get_or self.old k true ≡ true → get_or self.new k true ≡ true }
    {
        if mark < self.marks.len() {
            self.marks[mark] = true;
        }
    }
}

/// The mark of the name.
pub fn mark_of(name: &Name) -> usize
    ensures { result ≡ name_mark name.now }
{
    let mut hasher = FoldHasher::default();
    hasher.write(name.bytes());
    (hasher.finish() % MARKS as u64) as usize
}
