ghost use Rattle.std.specs.Prelude.{◌≡◌, ◌≤◌, [], None, Some, length, IfErr, IfOk, OnOk, OnErr};
ghost use Rattle.std.specs.Option.{option_copied, unwrap_or};
ghost use Rattle.s38_indexes.specs.Entries.{AreShort, IsRising, entry_found, index_image_size, index_with_entry, largest, without_entry};
ghost use Rattle.s38_indexes.specs.Leaves.{NoneEmpty, first_reaching, joined};
ghost use Rattle.s38_indexes.specs.Refusals.{insert_refusal, remove_refusal};

use crate::fault::IndexFault;
use crate::leaf::Leaf;
use crate::walk::Entries;
use crate::{leaves, lookup};
use s38_base::{Bytes, Relation};
use std::alloc::Global;
use std::marker::Model;

/// The longest image of an index, in bytes.
const LARGEST: u32 = 16_777_216;

/// An independent index: byte strings, each once, in rising order. Contracts see it as how long an entry may be
/// and the list of its entries.
#[derive(Drop)]
pub struct Index {
    alloc: Global,
    longest: u8,
    count: u32,
    size: u32,
    leaves: Vec<Leaf>,
}

impl Model for Index {
    ghost use Rattle.s38_indexes.specs.Entries.{EntryIndex};
    ghost use Rattle.s38_indexes.specs.Leaves.{IsKept, joined};

    ghost Value = { EntryIndex };

    ghost view = { λ i. record { longest = i.longest; entries = joined i.leaves.items } };

    ghost invariant = { λ i. IsKept i.longest i.count i.size i.leaves.items };
}

/// The first leaf that has an entry that does not come before a new one, or why that one would not be taken.
fn leaf_for(leaves: &[Leaf], longest: u8, size: u32, entry: &[u8]) -> Result<usize, IndexFault>
    requires rising { IsRising (joined leaves.now) }
    requires none_empty { NoneEmpty leaves.now }
    requires sized { size ≡ index_image_size (joined leaves.now) }
    requires within { size ≤ largest }
    ensures leaf { IfOk result (λ first. first ≡ first_reaching entry.now leaves.now) }
    ensures ok { OnOk result (insert_refusal entry.now (record { longest = longest; entries = joined leaves.now }) ≡ None) }
    ensures fault { IfErr result (λ fault.
        insert_refusal entry.now (record { longest = longest; entries = joined leaves.now }) ≡ Some fault) }
{
    if entry.len() > longest as usize {
        return Err(IndexFault::BadLength);
    }
    let first = lookup::first_reaching(leaves, entry);
    if lookup::holds_at(leaves, first, entry) {
        return Err(IndexFault::Present);
    }
    if size + 1 + entry.len() as u32 > LARGEST {
        return Err(IndexFault::Full);
    }
    Ok(first)
}

impl Index {
    /// An index without an entry, for entries of so many bytes at most; it takes no memory until it grows.
    pub fn new(alloc: Global, longest: u8) -> Index
        ensures { result ≡ record { longest = longest; entries = [] } }
    {
        Index {
            alloc,
            longest,
            count: 0,
            size: 5,
            leaves: Vec::new(alloc),
        }
    }

    /// How many bytes an entry has at most.
    pub fn longest(&self) -> u8
        ensures { result ≡ self.now.longest }
    {
        self.longest
    }

    /// How many entries there are.
    pub fn len(&self) -> usize
        ensures { result ≡ length self.now.entries }
    {
        self.count as usize
    }

    /// How many bytes the image of the index has.
    pub fn image_len(&self) -> u32
        ensures size { result ≡ index_image_size self.now.entries }
        ensures bound { result ≤ largest }
    {
        self.size
    }

    /// The entry that a search for a key finds: with EQ the key itself, with HI and NL the least entry
    /// above it (or equal), with LO and NH the greatest below it (or equal), with NE the least other
    /// entry, with ANY and FIRST the least of all, with LAST the greatest. None exactly where none fits.
    pub fn find(&self, relation: Relation, key: &[u8]) -> Option<&[u8]>
        ensures found { option_copied result ≡ entry_found relation key.now self.now.entries }
        ensures rising { IsRising self.now.entries }
    {
        match lookup::found(self.leaves.as_slice(), relation, key) {
            Some(entry) => Some(entry.as_slice()),
            None => None,
        }
    }

    /// The entries, in rising order, in constant time each.
    pub fn entries(&self) -> Entries<'_>
        ensures entries { result ≡ self.now.entries }
        ensures short { AreShort self.now.longest self.now.entries }
    {
        Entries::of(self.leaves.as_slice())
    }

    /// Whether an entry would be taken: what `insert` answers, want of memory aside.
    pub fn can_insert(&self, entry: &[u8]) -> Result<(), IndexFault>
        ensures ok { OnOk result (insert_refusal entry.now self.now ≡ None) }
        ensures fault { IfErr result (λ fault. insert_refusal entry.now self.now ≡ Some fault) }
    {
        match leaf_for(self.leaves.as_slice(), self.longest, self.size, entry) {
            Ok(_) => Ok(()),
            Err(fault) => Err(fault),
        }
    }

    /// Whether an entry is there to be removed: what `remove` answers.
    pub fn can_remove(&self, entry: &[u8]) -> Result<(), IndexFault>
        ensures ok { OnOk result (remove_refusal entry.now self.now ≡ None) }
        ensures fault { IfErr result (λ fault. remove_refusal entry.now self.now ≡ Some fault) }
    {
        if lookup::holds(self.leaves.as_slice(), entry) {
            Ok(())
        } else {
            Err(IndexFault::Absent)
        }
    }

    /// Adds an entry in its place. It is refused where it has more bytes than an entry may have, then where it
    /// is there, then where the image would exceed 16,777,216 bytes; an error leaves the index as it was.
    pub fn insert(&mut self, entry: &[u8]) -> Result<(), IndexFault>
        ensures taken { OnOk result (insert_refusal entry.now self.old ≡ None) }
        ensures ok { OnOk result (self.new
            ≡ record self.old { entries = index_with_entry entry.now self.old.entries }) }
        ensures fault { IfErr result (λ fault. fault
            ≡ unwrap_or (insert_refusal entry.now self.old) IndexFault.NoMemory) }
        ensures err { OnErr result (self.new ≡ self.old) }
    {
        let first = leaf_for(self.leaves.as_slice(), self.longest, self.size, entry)?;
        let Ok(copy) = Bytes::from_slice(self.alloc, entry) else {
            return Err(IndexFault::NoMemory);
        };
        match leaves::add(&mut self.leaves, self.alloc, first, copy) {
            Ok(()) => {}
            Err(_) => return Err(IndexFault::NoMemory),
        }
        self.count += 1;
        self.size += 1 + entry.len() as u32;
        Ok(())
    }

    /// Takes an entry out, without memory. It is refused where it is not there; an error leaves the index
    /// as it was.
    pub fn remove(&mut self, entry: &[u8]) -> Result<(), IndexFault>
        ensures held { OnOk result (remove_refusal entry.now self.old ≡ None) }
        ensures ok { OnOk result (self.new
            ≡ record self.old { entries = without_entry entry.now self.old.entries }) }
        ensures fault { IfErr result (λ fault. remove_refusal entry.now self.old ≡ Some fault) }
        ensures err { OnErr result (self.new ≡ self.old) }
    {
        if !leaves::remove(&mut self.leaves, entry) {
            return Err(IndexFault::Absent);
        }
        self.count -= 1;
        self.size -= 1 + entry.len() as u32;
        Ok(())
    }
}
