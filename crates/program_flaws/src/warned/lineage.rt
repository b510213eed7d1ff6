//! Which classes are below which, told without going up from one to the other.

ghost use Rattle.std.specs.Prelude.{◌↔◌, ◌⊎◌, ℕ, IsTrue, IfOk};
ghost use Rattle.class_sets.specs.Marks.{IsMarked};
ghost use Rattle.meta_model.specs.Loaded.{Loaded};
ghost use Rattle.meta_model.specs.Members.{Below};
ghost use Rattle.program_flaws.specs.Wires.{IsLineageOf};

use meta_model::Meta;
use sqlite_items::Items;
use std::alloc::{AllocError, Global};

/// For each class, of which classes it is one or below one.
#[derive(Drop)]
pub struct Lineage {
    rows: Items<Items<bool>>,
}

impl Lineage {
    /// The lineage of a program's classes; its error is that memory was refused.
    pub fn of(alloc: Global, meta: &Meta) -> Result<Lineage, AllocError>
        ensures { IfOk result (IsLineageOf meta.now) }
    {
        let mut rows = Items::new(alloc);
        for class in 0..meta.classes().len() {
            let row = row_of(alloc, meta, class)?;
            rows.push(row)?;
        }
        Ok(Lineage { rows })
    }

    /// Whether the class is the other or below it.
    pub fn is_below(&self, class: usize, other: usize) -> bool
        ensures { (p : Loaded) → IsLineageOf p self.now → (IsTrue result ↔ Below p class other) }
    {
        match self.rows.get(class) {
            Some(row) => match row.get(other) {
                Some(is_below) => *is_below,
                None => false,
            },
            None => false,
        }
    }

    /// Whether some class is both of these or below both of them: one is the other or below it, since a class has one base.
    pub fn meet(&self, class: usize, other: usize) -> bool
        ensures { (p : Loaded) → IsLineageOf p self.now → (Below p class other ⊎ Below p other class) → IsTrue result }
    {
        self.is_below(class, other) || self.is_below(other, class)
    }
}

/// Of which classes the class is one or below one; its error is that memory was refused.
fn row_of(alloc: Global, meta: &Meta, class: usize) -> Result<Items<bool>, AllocError>
    ensures { IfOk result (λ row. (d : ℕ) → IsMarked row d ↔ Below meta.now class d) }
{
    let mut row = Items::new(alloc);
    for other in 0..meta.classes().len() {
        row.push(meta.inherits(class, other))?;
    }
    Ok(row)
}
