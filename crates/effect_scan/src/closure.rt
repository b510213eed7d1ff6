//! Which classes' objects are destroyed with an object.

ghost use Rattle.std.specs.Prelude.{◌≡◌, ◌<◌, ℕ, length, IfOk};
ghost use Rattle.std.specs.List.{Contains};
ghost use Rattle.class_sets.specs.Marks.{IsMarked};
ghost use Rattle.effect_scan.specs.Rows.{row};
ghost use Rattle.effect_scan.specs.code.Adding.{Joins};
ghost use Rattle.effect_scan.specs.code.NodePlaces.{IsLineage, Lists};
ghost use Rattle.effect_scan.specs.Destroying.{AreClosures};
ghost use Rattle.effect_scan.specs.code.Relations.{IsSquare, IsEmpty, Extends, IsClosed, Passes, IsOwned, IsOwn, AreListed};

use crate::rows::targets_at;
use crate::targets::Targets;
use class_sets::ClassSet;
use meta_model::{Meta, MetaOwns};
use sqlite_items::Items;
use std::alloc::{AllocError, Global};

/// For each class, those of the objects that may be destroyed with one of it, in their order; its error is that memory was
/// refused. Time is linear in the pairs of classes that `owns` joins, and in words of sets for all pairs of classes.
pub fn closures(
    alloc: Global,
    meta: &Meta,
    lineage: &[Targets],
) -> Result<Items<Items<usize>>, AllocError>
    requires { IsLineage meta.now lineage.now }
    ensures { IfOk result (AreClosures meta.now) }
{
    let mut relation = empty_relation(alloc, lineage.len())?;
    close_owned(alloc, meta, lineage, relation.as_mut_slice())
}

/// The closures, in a relation that is empty at first.
fn close_owned(
    alloc: Global,
    meta: &Meta,
    lineage: &[Targets],
    relation: &mut [ClassSet],
) -> Result<Items<Items<usize>>, AllocError>
    requires lineage { IsLineage meta.now lineage.now }
    requires empty { IsEmpty (length lineage.now) relation.old }
    ensures { IfOk result (AreClosures meta.now) }
{
    relate_owned(lineage, meta.owned(), relation);
    relate_own(relation);
    close(alloc, relation)?;
    list_rows(alloc, relation)
}

/// No classes are related.
fn empty_relation(alloc: Global, count: usize) -> Result<Vec<ClassSet>, AllocError>
    ensures { IfOk result (λ relation. IsEmpty count relation.items) }
{
    let mut relation = Vec::new(alloc);
    for _class in 0..count {
        let row = ClassSet::with_room(alloc, count)?;
        relation.push(row)?;
    }
    Ok(relation)
}

/// Relates each class to those that its objects may be the parents of.
fn relate_owned(lineage: &[Targets], owned: &[MetaOwns], relation: &mut [ClassSet])
    requires inside { (c d : ℕ) → Contains (row lineage.now c) d → d < length relation.old }
    requires square { IsSquare (length relation.old) relation.old }
    ensures { Extends (IsOwned lineage.now owned.now) relation.old relation.new }
{
    for owns in owned {
        let parents = targets_at(lineage, owns.parent);
        let children = targets_at(lineage, owns.child);
        relate(relation, parents, children);
    }
}

/// Relates each of the first classes to each of the others.
fn relate(relation: &mut [ClassSet], firsts: &[usize], others: &[usize])
    requires firsts { (i : ℕ) → Contains firsts.now i → i < length relation.old }
    requires others { (j : ℕ) → Contains others.now j → j < length relation.old }
    requires square { IsSquare (length relation.old) relation.old }
    ensures { Extends (Joins firsts.now others.now) relation.old relation.new }
{
    for first in firsts {
        relation[*first].add_all(others);
    }
}

/// Relates each class to itself.
fn relate_own(relation: &mut [ClassSet])
    requires square { IsSquare (length relation.old) relation.old }
    ensures { Extends (IsOwn (length relation.old)) relation.old relation.new }
{
    for class in 0..relation.len() {
        relation[class].add(class);
    }
}

/// Relates what is related by way of others.
fn close(alloc: Global, relation: &mut [ClassSet]) -> Result<(), AllocError>
    requires square { IsSquare (length relation.old) relation.old }
    ensures { IfOk result (λ _. IsClosed relation.old relation.new) }
{
    for class in 0..relation.len() {
        let after = relation[class].copy(alloc)?;
        pass(relation, class, &after);
    }
    Ok(())
}

/// Relates each class that is related to this one to the others too.
fn pass(relation: &mut [ClassSet], class: usize, others: &ClassSet)
    requires class { class < length relation.old }
    requires others { length others.now ≡ length relation.old }
    requires square { IsSquare (length relation.old) relation.old }
    ensures { Extends (Passes relation.old class others.now) relation.old relation.new }
{
    for first in 0..relation.len() {
        if relation[first].contains(class) {
            relation[first].join(others);
        }
    }
}

/// The classes of the set, in their order.
fn marked(alloc: Global, set: &ClassSet) -> Result<Items<usize>, AllocError>
    ensures { IfOk result (Lists (IsMarked set.now) (length set.now)) }
{
    let mut classes = Items::new(alloc);
    for class in 0..set.room() {
        if set.contains(class) {
            classes.push(class)?;
        }
    }
    Ok(classes)
}

/// The classes of each set.
fn list_rows(alloc: Global, relation: &[ClassSet]) -> Result<Items<Items<usize>>, AllocError>
    requires square { IsSquare (length relation.now) relation.now }
    ensures { IfOk result (λ lists. AreListed relation.now lists) }
{
    let mut lists = Items::new(alloc);
    for set in relation {
        let list = marked(alloc, set)?;
        lists.push(list)?;
    }
    Ok(lists)
}
