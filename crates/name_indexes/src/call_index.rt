//! Indexes of what is found by its name and its number of parameters.

ghost use Rattle.std.specs.Prelude.{◌≡◌, ◌<◌, [], ◌∷◌, take, IfOk, OnOk, vec_len};
ghost use Rattle.name_indexes.specs.CallPlaces.{place_at, place_by, SamePlaces, IndexesCalls};
ghost use Rattle.name_indexes.specs.code.CallSteps.{AddsCall, KeepsOthers};
ghost use Rattle.name_indexes.specs.code.Marks.{name_mark};

use crate::called::Called;
use crate::layer::Layer;
use crate::name_index::NameIndex;
use crate::name_marks::{NameMarks, mark_of};
use basic_types::{Name, Shared, copy_all};
use sqlite_items::Items;
use std::alloc::{AllocError, Global};
use std::marker::Model;

/// How many layers an index has at most. A class that would have more has one with all its members: so a look-up that
/// finds nothing stays cheap under a long chain of classes. Most layers that don't have a name are told by its mark.
const MOST_LAYERS: usize = 64;

/// In so few layers a name is looked up without its mark, which would cost more than it saves.
const FEW_LAYERS: usize = 2;

/// The places of a class's members, inherited ones too, by their names and numbers of parameters. The index of those that
/// the class declares itself is a layer in front of its base's layers, which it shares. A name is found in time that
/// doesn't grow with the number of members.
pub struct CallIndex {
    layers: Items<Shared<Layer>>,
}

impl Drop for CallIndex {
    fn drop(self) {
        let CallIndex { layers: _ } = self;
    }
}

impl Model for CallIndex {
    ghost use Rattle.std.specs.Prelude.{List, ℕ};

    ghost Value = { List (List (List (List ℕ × ℕ))) };

    ghost view = { λ index. index.layers };
}

impl CallIndex {
    /// The index of no members.
    pub fn new(alloc: Global) -> CallIndex
        ensures { result ≡ [] }
    {
        CallIndex {
            layers: Items::new(alloc),
        }
    }

    /// The place of the member of this name with so many parameters; a property has none.
    pub fn find(&self, name: &Name, count: usize) -> Option<usize>
        ensures { result ≡ place_by self.now count name.now }
    {
        let layers = self.layers.as_slice();
        if layers.len() <= FEW_LAYERS {
            find_among(layers, name, count)
        } else {
            find_in(layers, name, mark_of(name), count)
        }
    }

    /// The same by the name's mark.
    #[inline(always)]
    fn find_marked(&self, name: &Name, mark: usize, count: usize) -> Option<usize>
        requires { mark ≡ name_mark name.now }
        ensures { result ≡ place_by self.now count name.now }
    {
        find_in(self.layers.as_slice(), name, mark, count)
    }

    /// The same index, which shares the layers. The error is that memory was refused.
    pub fn copy(&self, alloc: Global) -> Result<CallIndex, AllocError>
        ensures { IfOk result (λ copy. copy ≡ self.now) }
    {
        let layers = copy_all(alloc, self.layers.as_slice(), 0)?;
        Ok(CallIndex { layers })
    }

    /// Whether no layer more is put in front of it.
    fn is_full(&self) -> bool {
        MOST_LAYERS <= self.layers.len()
    }

    /// This index with one more layer in front. The error is that memory was refused.
    fn under(&self, alloc: Global, own: Layer) -> Result<CallIndex, AllocError>
        ensures { IfOk result (λ index. index ≡ own ∷ self.now) }
    {
        let mut layers = Items::new(alloc);
        let own = Shared::new(alloc, own)?;
        layers.push(own)?;
        let above = copy_all(alloc, self.layers.as_slice(), 0)?;
        layers.append(above)?;
        Ok(CallIndex { layers })
    }
}

/// The place that the name has in the first layer in which it has one with so many parameters.
fn find_among(layers: &[Shared<Layer>], name: &Name, count: usize) -> Option<usize>
    ensures { result ≡ place_by layers.now count name.now }
{
    for layer in layers {
        if let Some(place) = layer.get().look_up(name, count) {
            return Some(place);
        }
    }
    None
}

/// The same by the name's mark.
fn find_in(layers: &[Shared<Layer>], name: &Name, mark: usize, count: usize) -> Option<usize>
    requires { mark ≡ name_mark name.now }
    ensures { result ≡ place_by layers.now count name.now }
{
    for layer in layers {
        if let Some(place) = layer.get().find(name, mark, count) {
            return Some(place);
        }
    }
    None
}

/// The index of a class's members, of which so many are inherited and have this index. Of two that are called alike the
/// first has its place. The error is that memory was refused.
pub fn index_calls<T: Called>(
    alloc: Global,
    base: &CallIndex,
    inherited: usize,
    items: &[T],
) -> Result<CallIndex, AllocError>
    requires { IndexesCalls T.name_of T.count_of (take inherited items.now) base.now }
    ensures { IfOk result (IndexesCalls T.name_of T.count_of items.now) }
{
    if base.is_full() {
        index_all(alloc, items)
    } else {
        index_over(alloc, base, inherited, items)
    }
}

/// The same in one layer, which shares nothing.
pub fn index_all<T: Called>(alloc: Global, items: &[T]) -> Result<CallIndex, AllocError>
    ensures { IfOk result (IndexesCalls T.name_of T.count_of items.now) }
{
    let none = CallIndex::new(alloc);
    index_over(alloc, &none, 0, items)
}

/// The same with a layer in front of the base's, unless nothing would be in it.
fn index_over<T: Called>(
    alloc: Global,
    base: &CallIndex,
    inherited: usize,
    items: &[T],
) -> Result<CallIndex, AllocError>
    requires { IndexesCalls T.name_of T.count_of (take inherited items.now) base.now }
    ensures { IfOk result (IndexesCalls T.name_of T.count_of items.now) }
{
    let own = index_own(alloc, base, inherited, items)?;
    if own.is_empty() {
        base.copy(alloc)
    } else {
        base.under(alloc, own)
    }
}

/// The places of those that aren't called as an inherited one is, by their names, for each number of parameters.
fn index_own<T: Called>(
    alloc: Global,
    base: &CallIndex,
    inherited: usize,
    items: &[T],
) -> Result<Layer, AllocError>
    requires { IndexesCalls T.name_of T.count_of (take inherited items.now) base.now }
    ensures { IfOk result (λ own. IndexesCalls T.name_of T.count_of items.now (own ∷ base.now)) }
{
    let mut own = Vec::new(alloc);
    let mut marks = NameMarks::none(alloc, items.len().saturating_sub(inherited))?;
    for place in inherited..items.len() {
        let item = &items[place];
        let name = item.called();
        let count = item.count();
        let mark = mark_of(name);
        grow_past(alloc, &mut own, count, items, inherited)?;
        add_call(base, &mut own, name, mark, count, place)?;
        marks.put(mark);
    }
    Ok(Layer::of(Items::from_vec(own), marks))
}

/// Gives the name, which has this mark, a place among those with so many parameters, unless it has one, here or in the base's
/// index.
fn add_call(
    base: &CallIndex,
    own: &mut Vec<NameIndex>,
    name: &Name,
    mark: usize,
    count: usize,
    place: usize,
) -> Result<(), AllocError>
    requires mark { mark ≡ name_mark name.now }
    requires there { count < vec_len own.old }
    ensures added { OnOk result (AddsCall name.now count place (place_by (own.old.items ∷ base.now)) (place_by (own.new.items ∷ base.now))) }
    ensures others { OnOk result (KeepsOthers name.now own.old.items own.new.items) }
{
    match base.find_marked(name, mark, count) {
        Some(_) => Ok(()),
        None => {
            add_own(own, name, count, place)?;
            Ok(())
        }
    }
}

/// Gives the name a place in the index for so many parameters, unless it has one.
fn add_own(
    own: &mut Vec<NameIndex>,
    name: &Name,
    count: usize,
    place: usize,
) -> Result<(), AllocError>
    requires { count < vec_len own.old }
    ensures { OnOk result (AddsCall name.now count place (place_at own.old.items) (place_at own.new.items)) }
{
    own[count].insert(name, place)?;
    Ok(())
}

/// Adds empty indexes until there is one of this number, each with room for the items that have as many parameters, of those
/// that aren't inherited.
fn grow_past<T: Called>(
    alloc: Global,
    indexes: &mut Vec<NameIndex>,
    count: usize,
    items: &[T],
    inherited: usize,
) -> Result<(), AllocError>
    ensures same { OnOk result (SamePlaces indexes.old.items indexes.new.items) }
    ensures there { OnOk result (count < vec_len indexes.new) }
{
    while indexes.len() <= count {
        let room = calls_of(items, inherited, indexes.len());
        let index = NameIndex::with_room(alloc, room)?;
        indexes.push(index)?;
    }
    Ok(())
}

/// How many of the items that aren't inherited have so many parameters.
fn calls_of<T: Called>(items: &[T], inherited: usize, count: usize) -> usize {
    let mut calls = 0usize;
    for place in inherited..items.len() {
        if items[place].count() == count {
            calls = calls.saturating_add(1);
        }
    }
    calls
}
