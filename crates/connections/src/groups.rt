//! Lists of places under keys, of which one is mostly used where it was used last.

ghost use Rattle.std.specs.Prelude.{◌≡◌, ◌<◌, ◌∷◌, [], ◌++◌, true, false, None, OnOk, OnErr, IfSome, IfNone, if◌then◌else◌};
ghost use Rattle.std.specs.Vec.{vec_len, vec_capacity};
ghost use Rattle.indexmap.specs.IndexMap.{get, index_map_len};
ghost use Rattle.connections.specs.code.Groups.{list_of, HasRoom, Pushes, KeepsRoom, KeepsOtherRoom, TidiesGroups, SameGroups, StandsAt};

use crate::cell::Cell;
use crate::place::{CellPlace, CellPlaces};
use indexmap::IndexMap;
use slab::Slab;
use std::alloc::{AllocError, Global};
use std::hash::Hash;

/// The places under a key.
pub fn places_of<K: Eq + Hash>(groups: &IndexMap<K, CellPlaces>, key: K) -> &[CellPlace]
where
    K: Drop,
    ensures { result.now ≡ list_of K.eq groups.now key }
{
    match groups.get(&key) {
        None => &[],
        Some(places) => &places.items,
    }
}

/// The same, found with no search where the key stands at the index `near`.
pub fn places_near<K: Eq + Hash + Copy>(
    groups: &IndexMap<K, CellPlaces>,
    near: usize,
    key: K,
) -> &[CellPlace]
where
    K: Drop,
    ensures { result.now ≡ list_of K.eq groups.now key }
{
    match groups.get_index(near) {
        Some((found, places)) if *found == key => &places.items,
        _ => places_of(groups, key),
    }
}

/// The index of a key, found with no search where the key stands at the index `near`.
fn index_near<K: Eq + Hash + Copy>(
    groups: &IndexMap<K, CellPlaces>,
    near: usize,
    key: K,
) -> Option<usize>
where
    K: Drop,
    ensures found { IfSome result (λ index. StandsAt K.eq groups.now index key) }
    ensures within { IfSome result (λ index. index < index_map_len groups.now) }
    ensures none { IfNone result (get K.eq groups.now key ≡ None) }
{
    match groups.get_index(near) {
        Some((found, _)) if *found == key => Some(near),
        _ => {
            let (index, _, _) = groups.get_full(&key)?;
            Some(index)
        }
    }
}

/// Makes room for one more place under a key, which is looked for at the index `near` first. That is set to where it stands.
pub fn make_room<K: Eq + Hash + Copy>(
    alloc: Global,
    groups: &mut IndexMap<K, CellPlaces>,
    near: &mut usize,
    key: K,
) -> Result<(), AllocError>
where
    K: Drop,
    ensures room { OnOk result (HasRoom K.eq groups.new key) }
    ensures others { OnOk result (KeepsRoom K.eq groups.old groups.new) }
    ensures lists { SameGroups K.eq groups.old groups.new }
{
    match index_near(groups, *near, key) {
        None => {
            *near = groups.len();
            let places = CellPlaces::for_one(alloc)?;
            groups.insert(key, places)?;
            Ok(())
        }
        Some(index) => {
            *near = index;
            let (_, places) = groups.pair_mut(index);
            places.reserve()
        }
    }
}

/// One more place under a key, which has room for it and is looked for at the index `near` first.
pub fn push_place<K: Eq + Hash + Copy>(
    groups: &mut IndexMap<K, CellPlaces>,
    near: usize,
    key: K,
    place: CellPlace,
)
where
    K: Drop,
    requires { HasRoom K.eq groups.old key }
    ensures lists { Pushes K.eq groups.old groups.new key place }
    ensures others { KeepsOtherRoom K.eq groups.old groups.new key }
{
    match index_near(groups, near, key) {
        None => {}
        Some(index) => {
            let (_, places) = groups.pair_mut(index);
            places.push(place);
        }
    }
}

/// So many more of the places under a key, which is looked for at the index `near` first, lead nowhere.
pub fn forget_places<K: Eq + Hash + Copy>(
    groups: &mut IndexMap<K, CellPlaces>,
    near: usize,
    key: K,
    more: usize,
    cells: &Slab<Cell>,
)
where
    K: Drop,
    ensures { TidiesGroups K.eq cells.now groups.old groups.new }
{
    match index_near(groups, near, key) {
        None => {}
        Some(index) => {
            let (_, places) = groups.pair_mut(index);
            places.forget(more, cells);
        }
    }
}

/// Drops the places that lead nowhere, and the keys that have no others.
pub fn tidy_groups<K: Eq + Hash + Copy>(groups: &mut IndexMap<K, CellPlaces>, cells: &Slab<Cell>)
where
    K: Drop,
    ensures { TidiesGroups K.eq cells.now groups.old groups.new }
{
    let len = groups.len();
    for visited in 0..len {
        tidy_at(groups, len - 1 - visited, cells);
    }
}

/// Drops the places under the key at an index that lead nowhere, and the key if it has no others.
fn tidy_at<K: Eq + Hash + Copy>(
    groups: &mut IndexMap<K, CellPlaces>,
    index: usize,
    cells: &Slab<Cell>,
)
where
    K: Drop,
    ensures { TidiesGroups K.eq cells.now groups.old groups.new }
{
    if let Some(key) = key_at(groups, index) {
        forget_places(groups, index, key, usize::MAX, cells);
        drop_empty(groups, key);
    }
}

/// The key at an index.
fn key_at<K: Eq + Hash + Copy>(groups: &IndexMap<K, CellPlaces>, index: usize) -> Option<K> {
    match groups.get_index(index) {
        None => None,
        Some((key, _)) => Some(*key),
    }
}

/// Drops a key, if it has no places.
fn drop_empty<K: Eq + Hash + Copy>(groups: &mut IndexMap<K, CellPlaces>, key: K)
where
    K: Drop,
    ensures { SameGroups K.eq groups.old groups.new }
{
    if places_of(groups, key).is_empty() {
        groups.swap_remove(&key);
    }
}
