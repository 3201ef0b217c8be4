ghost use Rattle.std.specs.Prelude.{◌≡◌, ◌≤◌, ◌<◌, ◌+◌, IsTrue, OnErr, OnOk, insert, not, vec_len};
ghost use Rattle.std.specs.FinMap as map;
ghost use Rattle.std.specs.FinMap.{is_sorted, put};
ghost use Rattle.std.specs.FinMap.Entries.{where_key};
ghost use Rattle.std.specs.Ordering.{eq_by_cmp};
ghost use Rattle.std.specs.Vec.{vec_capacity};
ghost use Rattle.s38_vault.specs.Content.{with_value};
ghost use Rattle.s38_vault.specs.Directory.{next_among};
ghost use Rattle.s38_vault.specs.Keys.{key_cmp};

use crate::search;
use s38_base::{Key, NoMemory};
use std::alloc::Global;
use std::marker::Model;

/// Values by key, in the order of the keys. Contracts see it as the finite map, and for how many more keys memory is
/// reserved.
#[derive(Drop)]
pub struct Keyed<V> {
    entries: Vec<(Key, V)>,
}

impl<V> Model for Keyed<V> {
    ghost use Rattle.std.specs.Prelude.{◌-◌, IsTrue, vec_len};
    ghost use Rattle.std.specs.Vec.{vec_capacity};
    ghost use Rattle.std.specs.FinMap.{from_sorted, is_sorted};
    ghost use Rattle.s38_vault.specs.Keyed.{KeyedMap, keyed_code};
    ghost use Rattle.s38_vault.specs.Keys.{key_cmp};

    ghost Value = { KeyedMap V };

    ghost coded = { keyed_code V.code };

    ghost view = { λ k. record { values = from_sorted k.entries.items; spare = vec_capacity k.entries - vec_len k.entries } };

    ghost invariant = { λ k. IsTrue (is_sorted key_cmp k.entries.items) };
}

impl<V> Keyed<V> {
    /// No values; it takes no memory until some is reserved.
    pub fn new(alloc: Global) -> Self
        ensures { result ≡ record { values = map.empty; spare = 0 } }
    {
        Keyed {
            entries: Vec::new(alloc),
        }
    }

    /// How many keys there are.
    pub fn len(&self) -> usize
        ensures { result ≡ map.len self.now.values }
    {
        self.entries.as_slice().len()
    }

    /// Whether a key is there.
    pub fn contains_key(&self, key: Key) -> bool
        ensures { result ≡ map.contains_key self.now.values key }
    {
        search::is_at(&self.entries, search::place(&self.entries, key), key)
    }

    /// The least key after one, or the least of all.
    pub fn next_key(&self, after: Option<Key>) -> Option<Key>
        ensures { result ≡ next_among (map.keys self.now.values) after }
    {
        search::next_key(&self.entries, after)
    }

    /// Reserves memory for so many more keys; an error leaves all as it was.
    pub fn reserve(&mut self, count: usize) -> Result<(), NoMemory>
        ensures ok { OnOk result (count ≤ self.new.spare) }
        ensures spare { self.old.spare ≤ self.new.spare }
        ensures values { self.new.values ≡ self.old.values }
        ensures err { OnErr result (self.new ≡ self.old) }
    {
        Ok(self.entries.reserve(count)?)
    }
}

impl<V: Copy> Keyed<V> {
    /// The value of a key.
    pub fn get(&self, key: Key) -> Option<V>
        ensures { result ≡ map.get self.now.values key }
    {
        search::find(&self.entries, key)
    }

    /// Gives a key a value, without memory.
    pub fn insert(&mut self, key: Key, value: V)
        requires { 1 ≤ self.old.spare }
        ensures values { self.new.values ≡ map.insert self.old.values key value }
        ensures spare { self.old.spare ≤ self.new.spare + 1 }
    {
        put(&mut self.entries, key, value);
    }

    /// Takes a key out, if it is there.
    pub fn remove(&mut self, key: Key)
        ensures values { self.new.values ≡ map.remove self.old.values key }
        ensures spare { self.old.spare ≤ self.new.spare }
    {
        take_out(&mut self.entries, key);
    }

    /// Gives a key a value, or takes it out, without memory.
    pub fn set(&mut self, key: Key, value: Option<V>)
        requires { 1 ≤ self.old.spare }
        ensures values { self.new.values ≡ with_value self.old.values key value }
        ensures spare { self.old.spare ≤ self.new.spare + 1 }
    {
        match value {
            Some(value) => self.insert(key, value),
            None => self.remove(key),
        }
    }
}

/// Puts an entry in its place, or in the place of the one that has its key.
fn put<V: Copy>(entries: &mut Vec<(Key, V)>, key: Key, value: V)
    requires sorted { IsTrue (is_sorted key_cmp entries.old.items) }
    requires room { vec_len entries.old < vec_capacity entries.old }
    ensures entries { entries.new.items ≡ put key_cmp key value entries.old.items }
    ensures capacity { vec_capacity entries.new ≡ vec_capacity entries.old }
    ensures len { vec_len entries.new ≤ vec_len entries.old + 1 }
{
    let at = search::place(entries, key);
    if search::is_at(entries, at, key) {
        entries[at] = (key, value);
    } else {
        insert_at(entries, at, (key, value));
    }
}

/// Adds an entry at a place, where there is room.
fn insert_at<V: Copy>(entries: &mut Vec<(Key, V)>, at: usize, entry: (Key, V))
    requires inside { at ≤ vec_len entries.old }
    requires room { vec_len entries.old < vec_capacity entries.old }
    ensures entries { entries.new.items ≡ insert entries.old.items at entry }
    ensures capacity { vec_capacity entries.new ≡ vec_capacity entries.old }
    ensures len { vec_len entries.new ≡ vec_len entries.old + 1 }
{
    let _ = entries.insert(at, entry);
}

/// Takes the entry of a key out, if it is there.
fn take_out<V: Copy>(entries: &mut Vec<(Key, V)>, key: Key)
    requires { IsTrue (is_sorted key_cmp entries.old.items) }
    ensures entries { entries.new.items ≡ where_key key_cmp (λ k. not (eq_by_cmp key_cmp key k)) entries.old.items }
    ensures capacity { vec_capacity entries.new ≡ vec_capacity entries.old }
    ensures len { vec_len entries.new ≤ vec_len entries.old }
{
    let at = search::place(entries, key);
    if search::is_at(entries, at, key) {
        entries.remove(at);
    }
}
