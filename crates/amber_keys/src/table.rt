//! A table of keys, each with a value. Over `Key`; rests on `indexmap`.

ghost use Rattle.std.specs.Prelude.{◌≡◌, ◌+◌, ◌<◌, ◌≤◌, ◌++◌, ◌∷◌, [], ◌↔◌, List, None, Some, IfNone, IfSome, IsOk, IsSome, OnErr, OnOk, length, slice_get};
ghost use Rattle.std.specs.Borrow.{sem};
ghost use Rattle.std.specs.List.{IsDistinct};
ghost use Rattle.std.specs.Map.{lookup, values_of};
ghost use Rattle.std.specs.Map.Iter.{ShowsInOrder, deref_pair};
ghost use Rattle.std.specs.Option.{option_to_list};
ghost use Rattle.amber_rows.specs.Operators.{same_row};
ghost use Rattle.amber_rows.specs.declared.value.Value.{Value as Cell};
ghost use Rattle.amber_keys.specs.KeyTable.{HaveClones, table_keys};

use crate::key::Key;
use indexmap::IndexMap;
use indexmap::map::Iter;
use std::alloc::{AllocError, Global};
use std::marker::Model;

/// Keys in the order in which they were added, each with a value. It is seen as the list of these pairs, and
/// how many more keys can be added without memory.
pub struct KeyTable<V> {
    map: IndexMap<Key, V>,
}

impl<V: Drop> Drop for KeyTable<V> {
    fn drop(self) {
        let KeyTable { map: _ } = self;
    }
}

impl<V> Model for KeyTable<V> {
    ghost use Rattle.indexmap.specs.IndexMap.{spare};
    ghost use Rattle.amber_keys.specs.KeyTable.{Table};

    ghost Value = { Table V };

    ghost view = { λ a. record { entries = a.map.entries; room = spare a.map } };
}

impl<V> KeyTable<V> {
    ghost use Rattle.amber_keys.specs.Lending.{LendsValue};

    /// A table without keys.
    pub fn new(alloc: Global) -> Self
        ensures { result.entries ≡ [] }
    {
        KeyTable {
            map: IndexMap::new(alloc),
        }
    }

    /// How many keys there are.
    pub fn len(&self) -> usize
        ensures { result ≡ length self.now.entries }
    {
        self.map.len()
    }

    /// The place of a key; nothing where it was not added.
    #[inline(always)]
    pub fn place_of(&self, key: &Key) -> Option<usize>
        ensures place { IfSome result
            (λ place. slice_get (table_keys self.now) place ≡ Some key.now) }
        ensures within { IfSome result (λ place. place < length self.now.entries) }
        ensures absent { IfNone result (lookup (same_row key.now) self.now.entries ≡ None) }
        ensures distinct { IsDistinct same_row (table_keys self.now) }
    {
        self.map.get_index_of(key)
    }

    /// The key and the value at a place.
    #[inline(always)]
    pub fn entry(&self, place: usize) -> (&Key, &V)
        requires { place < length self.now.entries }
        ensures key { slice_get (table_keys self.now) place ≡ Some result.0.now }
        ensures value { slice_get (values_of self.now.entries) place ≡ Some result.1.now }
    {
        self.map.get_index(place).unwrap()
    }

    /// The value at a place, to be changed. Keys and places stay as they are.
    #[inline(always)]
    pub fn value_mut(&mut self, place: usize) -> &mut V
        requires { place < length self.old.entries }
        ensures* writes_back { sem 𝓛 (LendsValue V.row self.entry place result) }
        ensures value { slice_get (values_of self.old.entries) place ≡ Some result.now }
    {
        &mut self.map[place]
    }

    /// All keys with their values, in their order.
    pub fn iter(&self) -> Iter<'_, Key, V>
        ensures rest { result ≡ self.now.entries }
        ensures runs { ShowsInOrder (deref_pair {K = List Cell} {X = V}) }
    {
        self.map.iter()
    }

    /// Makes room for `more` further keys. If memory runs out all is as before.
    pub fn reserve(&mut self, more: usize) -> Result<(), AllocError>
        ensures entries { self.new.entries ≡ self.old.entries }
        ensures ok { OnOk result (more ≤ self.new.room) }
        ensures succeeds { more ≤ self.old.room → IsOk result }
        ensures room { self.old.room ≤ self.new.room }
    {
        self.map.reserve(more)
    }

    /// Appends a key that is not there. Memory is asked for only where there is no room; if it runs out the
    /// table is as before.
    pub fn add(&mut self, key: Key, value: V) -> Result<(), AllocError>
    where
        V: Drop,
        requires { lookup (same_row key) self.old.entries ≡ None }
        ensures ok { OnOk result (self.new.entries ≡ self.old.entries ++ (key, value) ∷ []) }
        ensures err { OnErr result (self.new.entries ≡ self.old.entries) }
        ensures succeeds { 0 < self.old.room → IsOk result }
        ensures room { self.old.room ≤ self.new.room + 1 }
    {
        match self.map.insert(key, value) {
            Ok(_) => Ok(()),
            Err(_) => Err(AllocError),
        }
    }

    /// Takes back the key that was added last, with its value; nothing where there is none. Its room is kept.
    pub fn take_last(&mut self) -> Option<(Key, V)>
        ensures entries { self.old.entries ≡ self.new.entries ++ option_to_list result }
        ensures found { IsSome result ↔ (0 < length self.old.entries) }
        ensures room { self.old.room ≤ self.new.room }
    {
        self.map.pop()
    }
}

impl<V: Clone> Clone for KeyTable<V> {
    ghost is_clone = { λ table copy. HaveClones V.is_clone table.entries copy.entries };

    fn clone(&self) -> Result<Self, AllocError> {
        Ok(KeyTable {
            map: self.map.clone()?,
        })
    }
}
