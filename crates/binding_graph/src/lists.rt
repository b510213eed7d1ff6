//! Properties by key, each once.

ghost use Rattle.std.specs.Prelude.{◌≡◌, ℕ, [], ◌∷◌, true, false, cond, IfOk, OnOk, OnErr};
ghost use Rattle.binding_graph.specs.code.Keys.{same_key};
ghost use Rattle.binding_graph.specs.code.Lists.{Adds, Clears, Forgets, SameLists, is_key_in, keys_held, keys_in, keys_under};

use indexmap::{IndexMap, IndexSet};
use std::alloc::{AllocError, Global};
use std::hash::Hash;
use std::slice;

/// Some properties, each once, by their numbers. One is added or forgotten in time that doesn't grow with their number. Most
/// often it is one alone, which takes no memory of its own.
#[derive(Drop)]
pub enum Places {
    /// None.
    Nothing,
    /// This one.
    One((usize, usize)),
    /// So many, which may be none.
    Many(IndexSet<(usize, usize)>),
}

impl Places {
    /// The numbers of the properties.
    #[inline(always)]
    pub fn as_slice(&self) -> &[(usize, usize)]
        ensures { result.now ≡ keys_held self.now }
    {
        match self {
            Places::Nothing => &[],
            Places::One(key) => slice::from_ref(key),
            Places::Many(keys) => keys.as_slice(),
        }
    }

    /// This one alone.
    fn one(key: (usize, usize)) -> Places
        ensures { (k : ℕ × ℕ) → is_key_in k (keys_held result) ≡ cond (same_key key k) true false }
    {
        Places::One(key)
    }

    /// With this one, where it isn't among them. The error is that memory was refused; then nothing changes.
    fn add(&mut self, alloc: Global, key: (usize, usize)) -> Result<(), AllocError>
        ensures added { OnOk result ((k : ℕ × ℕ) → is_key_in k (keys_held self.new)
            ≡ cond (same_key key k) true (is_key_in k (keys_held self.old))) }
        ensures err { OnErr result (keys_held self.new ≡ keys_held self.old) }
    {
        match self {
            Places::Nothing => *self = Places::one(key),
            Places::One(first) => *self = both(alloc, *first, key)?,
            Places::Many(keys) => {
                keys.insert(key)?;
            }
        }
        Ok(())
    }

    /// Without this one.
    fn forget(&mut self, key: (usize, usize))
        ensures { (k : ℕ × ℕ) → is_key_in k (keys_held self.new)
            ≡ cond (same_key key k) false (is_key_in k (keys_held self.old)) }
    {
        match self {
            Places::Nothing => {}
            Places::One(only) => *self = left(*only, key),
            Places::Many(keys) => {
                keys.swap_remove(&key);
            }
        }
    }
}

/// Two properties, or one if they are the same. Its error is that memory was refused.
fn both(alloc: Global, first: (usize, usize), second: (usize, usize)) -> Result<Places, AllocError>
    ensures { IfOk result (λ places. (k : ℕ × ℕ) → is_key_in k (keys_held places)
        ≡ cond (same_key second k) true (is_key_in k (first ∷ []))) }
{
    if is_same_key(first, second) {
        return Ok(Places::One(first));
    }
    let mut keys = IndexSet::with_capacity(alloc, 2)?;
    keys.insert(first)?;
    keys.insert(second)?;
    Ok(Places::Many(keys))
}

/// What is left of one property without another.
fn left(only: (usize, usize), key: (usize, usize)) -> Places
    ensures { (k : ℕ × ℕ) → is_key_in k (keys_held result)
        ≡ cond (same_key key k) false (is_key_in k (only ∷ [])) }
{
    if is_same_key(only, key) {
        return Places::Nothing;
    }
    Places::One(only)
}

/// Whether these are the numbers of one property.
fn is_same_key(a: (usize, usize), b: (usize, usize)) -> bool
    ensures { result ≡ same_key a b }
{
    a.0 == b.0 && a.1 == b.1
}

/// The numbers of the properties under a key.
pub fn places_of<K: Eq + Hash>(lists: &IndexMap<K, Places>, key: K) -> &[(usize, usize)]
where
    K: Drop,
    ensures { result.now ≡ keys_under K.eq lists.now key }
{
    match lists.get(&key) {
        None => &[],
        Some(places) => places.as_slice(),
    }
}

/// Puts a property under a key, where it isn't there. The error is that memory was refused; then nothing is seen to change.
pub fn add_place<K: Eq + Hash>(
    alloc: Global,
    lists: &mut IndexMap<K, Places>,
    key: K,
    place: (usize, usize),
) -> Result<(), AllocError>
where
    K: Drop,
    ensures added { OnOk result (Adds K.eq lists.old lists.new key place) }
    ensures err { OnErr result (SameLists K.eq lists.old lists.new) }
{
    if let Some(places) = lists.get_mut(&key) {
        return places.add(alloc, place);
    }
    lists.insert(key, Places::one(place))?;
    Ok(())
}

/// One property less under a key.
pub fn forget_place<K: Eq + Hash>(lists: &mut IndexMap<K, Places>, key: K, place: (usize, usize))
where
    K: Drop,
    ensures { Forgets K.eq lists.old lists.new key place }
{
    match lists.get_mut(&key) {
        None => {}
        Some(places) => places.forget(place),
    }
}

/// Takes all properties from under a key.
pub fn take_places<K: Eq + Hash>(lists: &mut IndexMap<K, Places>, key: K) -> Option<Places>
where
    K: Drop,
    ensures taken { keys_in result ≡ keys_under K.eq lists.old key }
    ensures left { Clears K.eq lists.old lists.new key }
{
    lists.swap_remove(&key)
}

/// Drops a key with no properties.
pub fn drop_empty<K: Eq + Hash + Copy>(lists: &mut IndexMap<K, Places>, key: K)
where
    K: Drop,
    ensures { SameLists K.eq lists.old lists.new }
{
    if places_of(lists, key).is_empty() {
        lists.swap_remove(&key);
    }
}
