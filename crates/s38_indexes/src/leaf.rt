ghost use Rattle.std.specs.Prelude.{◌≡◌, ◌<◌, ◌≤◌, ◌↔◌, ◌++◌, [], ◌∷◌, false, length, nat_le, true, IfOk, IsTrue, OnOk, OnErr};
ghost use Rattle.std.specs.Option.{option_copied};
ghost use Rattle.s38_indexes.specs.Entries.{asks_for_greatest, greatest, has_entry, index_with_entry, least, without_entry};
ghost use Rattle.s38_indexes.specs.Leaves.{has, least_past, most, passes, reaches};

use crate::entries;
use s38_base::{Bytes, NoMemory, Relation};
use std::alloc::Global;
use std::marker::Model;

/// How many entries a leaf has at most.
const MOST: usize = 64;

/// Some entries of an index that follow one another.
#[derive(Drop)]
pub struct Leaf {
    entries: Vec<Bytes>,
}

impl Model for Leaf {
    ghost use Rattle.std.specs.Prelude.{List};
    ghost use Rattle.s38_indexes.specs.Entries.{IndexEntry};
    ghost use Rattle.s38_indexes.specs.Leaves.{IsLeaf};

    ghost Value = { List IndexEntry };

    ghost view = { λ l. l.entries.items };

    ghost invariant = { λ l. IsLeaf l.entries.items };
}

impl Leaf {
    /// A leaf of one entry.
    pub fn of(alloc: Global, entry: Bytes) -> Result<Leaf, NoMemory>
        ensures { IfOk result (λ leaf. leaf ≡ entry ∷ []) }
    {
        match vec![in alloc; entry] {
            Ok(entries) => Ok(Leaf { entries }),
            Err(_) => Err(NoMemory),
        }
    }

    /// Whether it has as many entries as it may have.
    pub fn is_full(&self) -> bool
        ensures { result ≡ nat_le most (length self.now) }
    {
        self.entries.len() >= MOST
    }

    /// Whether it has no entry.
    pub fn is_empty(&self) -> bool
        ensures { IsTrue result ↔ (self.now ≡ []) }
    {
        self.entries.is_empty()
    }

    /// How many entries it has.
    pub fn len(&self) -> usize
        ensures { result ≡ length self.now }
    {
        self.entries.len()
    }

    /// Its entries, in rising order.
    pub fn entries(&self) -> &[Bytes]
        ensures { result.now ≡ self.now }
    {
        self.entries.as_slice()
    }

    /// Whether it has an entry that is in relation LO, NH or LAST to a key.
    pub fn has(&self, relation: Relation, key: &[u8]) -> bool
        requires { asks_for_greatest relation ≡ true }
        ensures { result ≡ has relation key.now self.now }
    {
        entries::has(self.entries.as_slice(), relation, key)
    }

    /// Whether it has an entry that is not in relation LO, NH or LAST to a key.
    pub fn passes(&self, relation: Relation, key: &[u8]) -> bool
        requires { asks_for_greatest relation ≡ true }
        ensures { result ≡ passes relation key.now self.now }
    {
        entries::passes(self.entries.as_slice(), relation, key)
    }

    /// The least entry that is not in relation LO, NH or LAST to a key.
    pub fn least_past(&self, relation: Relation, key: &[u8]) -> Option<&Bytes>
        requires { asks_for_greatest relation ≡ true }
        ensures { option_copied result ≡ least_past relation key.now self.now }
    {
        entries::least_past(self.entries.as_slice(), relation, key)
    }

    /// The greatest entry that is in relation LO, NH or LAST to a key.
    pub fn greatest(&self, relation: Relation, key: &[u8]) -> Option<&Bytes>
        requires { asks_for_greatest relation ≡ true }
        ensures { option_copied result ≡ greatest relation key.now self.now }
    {
        entries::greatest(self.entries.as_slice(), relation, key)
    }

    /// The least entry that is in a relation to a key, sought from the first on.
    pub fn least(&self, relation: Relation, key: &[u8]) -> Option<&Bytes>
        ensures { option_copied result ≡ least relation key.now self.now }
    {
        entries::least(self.entries.as_slice(), relation, key)
    }

    /// Whether it has an entry that does not come before a key.
    pub fn reaches(&self, key: &[u8]) -> bool
        ensures { result ≡ reaches key.now self.now }
    {
        self.passes(Relation::Lo, key)
    }

    /// Whether it has an entry.
    pub fn holds(&self, key: &[u8]) -> bool
        ensures { result ≡ has_entry key.now self.now }
    {
        entries::holds(self.entries.as_slice(), key)
    }

    /// Adds an entry in its place; an error leaves the leaf as it was.
    pub fn add(&mut self, entry: Bytes) -> Result<(), NoMemory>
        requires new { has_entry entry self.old ≡ false }
        requires room { length self.old < most }
        ensures ok { OnOk result (self.new ≡ index_with_entry entry self.old) }
        ensures err { OnErr result (self.new ≡ self.old) }
    {
        entries::add(&mut self.entries, entry)
    }

    /// Takes an entry out, and tells whether it was there.
    pub fn remove(&mut self, key: &[u8]) -> bool
        ensures held { result ≡ has_entry key.now self.old }
        ensures rest { self.new ≡ without_entry key.now self.old }
    {
        entries::remove(&mut self.entries, key)
    }

    /// Gives the upper half away; an error leaves the leaf as it was.
    pub fn split(&mut self) -> Result<Leaf, NoMemory>
        requires { most ≤ length self.old }
        ensures ok { IfOk result (λ upper. self.new ++ upper ≡ self.old) }
        ensures lower_room { OnOk result (length self.new < most) }
        ensures upper_room { IfOk result (λ upper. length upper < most) }
        ensures err { OnErr result (self.new ≡ self.old) }
    {
        match entries::split(&mut self.entries, MOST / 2) {
            Ok(entries) => Ok(Leaf { entries }),
            Err(e) => Err(e),
        }
    }
}
