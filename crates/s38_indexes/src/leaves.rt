ghost use Rattle.std.specs.Prelude.{◌≡◌, ◌+◌, ◌<◌, ◌≤◌, ◌↔◌, ◌++◌, [], ◌∷◌, false, insert, length, nat_le, if◌then◌else◌, remove, slice_index_or, slice_set, true, IfOk, IsTrue, OnOk, OnErr};
ghost use Rattle.std.specs.Vec.{vec_capacity, vec_len};
ghost use Rattle.s38_indexes.specs.Entries.{IndexEntry, IsRising, has_entry, index_with_entry, without_entry};
ghost use Rattle.s38_indexes.specs.Leaves.{IsPlaceFor, IsSplit, NoneEmpty, first_reaching, joined, most, reaches};

use crate::leaf::Leaf;
use crate::lookup::first_reaching;
use s38_base::{Bytes, NoMemory};
use std::alloc::Global;

/// The leaf into which an entry goes: the first that has an entry after it, else the last.
fn place_for(leaves: &[Leaf], first: usize) -> usize
    requires { 0 < length leaves.now }
    ensures { (key : IndexEntry) → first ≡ first_reaching key leaves.now → IsPlaceFor key leaves.now result }
{
    if first < leaves.len() {
        first
    } else {
        leaves.len() - 1
    }
}

/// Adds an entry to a leaf; an error leaves all as they were.
fn add_at(leaves: &mut Vec<Leaf>, at: usize, entry: Bytes) -> Result<(), NoMemory>
    requires inside { at < length leaves.old.items }
    requires new { has_entry entry (slice_index_or leaves.old.items at []) ≡ false }
    requires room { length (slice_index_or leaves.old.items at []) < most }
    ensures ok { OnOk result (leaves.new.items
        ≡ slice_set leaves.old.items at (index_with_entry entry (slice_index_or leaves.old.items at []))) }
    ensures err { OnErr result (leaves.new.items ≡ leaves.old.items) }
{
    let leaf = &mut leaves[at];
    leaf.add(entry)
}

/// Takes an entry out of a leaf, and tells whether it was there.
fn remove_at(leaves: &mut Vec<Leaf>, at: usize, key: &[u8]) -> bool
    requires { at < length leaves.old.items }
    ensures held { result ≡ has_entry key.now (slice_index_or leaves.old.items at []) }
    ensures rest { leaves.new.items
        ≡ slice_set leaves.old.items at (without_entry key.now (slice_index_or leaves.old.items at [])) }
{
    let leaf = &mut leaves[at];
    leaf.remove(key)
}

/// Gives the upper half of a full leaf away; an error leaves all as they were.
fn halve(leaves: &mut Vec<Leaf>, at: usize) -> Result<Leaf, NoMemory>
    requires inside { at < length leaves.old.items }
    requires full { most ≤ length (slice_index_or leaves.old.items at []) }
    ensures lower { OnOk result (leaves.new.items
        ≡ slice_set leaves.old.items at (slice_index_or leaves.new.items at [])) }
    ensures whole { IfOk result (λ upper. slice_index_or leaves.new.items at [] ++ upper
        ≡ slice_index_or leaves.old.items at []) }
    ensures lower_room { OnOk result (length (slice_index_or leaves.new.items at []) < most) }
    ensures upper_room { IfOk result (λ upper. length upper < most) }
    ensures len { OnOk result (vec_len leaves.new ≡ vec_len leaves.old) }
    ensures capacity { OnOk result (vec_capacity leaves.new ≡ vec_capacity leaves.old) }
    ensures err { OnErr result (leaves.new.items ≡ leaves.old.items) }
{
    let leaf = &mut leaves[at];
    leaf.split()
}

/// Puts a leaf after another where there is room for it.
fn put_after(leaves: &mut Vec<Leaf>, at: usize, leaf: Leaf)
    requires inside { at < length leaves.old.items }
    requires room { vec_len leaves.old < vec_capacity leaves.old }
    ensures { leaves.new.items ≡ insert leaves.old.items (at + 1) leaf }
{
    leaves.insert(at + 1, leaf).unwrap();
}

/// Makes two leaves of a full one; an error leaves all as they were.
fn split_at(leaves: &mut Vec<Leaf>, at: usize) -> Result<(), NoMemory>
    requires inside { at < length leaves.old.items }
    requires full { most ≤ length (slice_index_or leaves.old.items at []) }
    ensures ok { OnOk result (IsSplit leaves.old.items leaves.new.items at) }
    ensures err { OnErr result (leaves.new.items ≡ leaves.old.items) }
{
    if leaves.reserve(1).is_err() {
        return Err(NoMemory);
    }
    match halve(leaves, at) {
        Ok(upper) => {
            put_after(leaves, at, upper);
            Ok(())
        }
        Err(e) => Err(e),
    }
}

/// Into which of two neighbours an entry goes.
fn half_for(leaves: &[Leaf], at: usize, key: &[u8]) -> usize
    requires { at + 1 < length leaves.now }
    ensures { result ≡ (if reaches key.now (slice_index_or leaves.now at []) then at else at + 1) }
{
    if leaves[at].reaches(key) { at } else { at + 1 }
}

/// Whether a leaf is full.
fn is_full_at(leaves: &[Leaf], at: usize) -> bool
    requires { at < length leaves.now }
    ensures { result ≡ nat_le most (length (slice_index_or leaves.now at [])) }
{
    leaves[at].is_full()
}

/// Adds an entry to a leaf that has room; an error leaves the entries as they were.
fn add_with_room(leaves: &mut Vec<Leaf>, at: usize, entry: Bytes) -> Result<(), NoMemory>
    requires place { IsPlaceFor entry leaves.old.items at }
    requires new { has_entry entry (joined leaves.old.items) ≡ false }
    requires room { length (slice_index_or leaves.old.items at []) < most }
    requires none_empty { NoneEmpty leaves.old.items }
    ensures ok { OnOk result (joined leaves.new.items ≡ index_with_entry entry (joined leaves.old.items)) }
    ensures err { OnErr result (joined leaves.new.items ≡ joined leaves.old.items) }
    ensures none_empty { NoneEmpty leaves.new.items }
{
    add_at(leaves, at, entry)
}

/// A place for an entry in this leaf, or in one of its halves; an error leaves the entries as they were.
fn room_in(leaves: &mut Vec<Leaf>, at: usize, key: &[u8]) -> Result<usize, NoMemory>
    requires place { IsPlaceFor key.now leaves.old.items at }
    requires none_empty { NoneEmpty leaves.old.items }
    ensures place { IfOk result (λ at. IsPlaceFor key.now leaves.new.items at) }
    ensures room { IfOk result (λ at. length (slice_index_or leaves.new.items at []) < most) }
    ensures same { joined leaves.new.items ≡ joined leaves.old.items }
    ensures none_empty { NoneEmpty leaves.new.items }
{
    if !is_full_at(leaves, at) {
        return Ok(at);
    }
    match split_at(leaves, at) {
        Ok(()) => Ok(half_for(leaves, at, key)),
        Err(e) => Err(e),
    }
}

/// Makes the first leaf, of one entry; an error changes nothing.
fn add_first(leaves: &mut Vec<Leaf>, alloc: Global, entry: Bytes) -> Result<(), NoMemory>
    requires { leaves.old.items ≡ [] }
    ensures ok { OnOk result (leaves.new.items ≡ (entry ∷ []) ∷ []) }
    ensures err { OnErr result (leaves.new.items ≡ []) }
{
    let leaf = Leaf::of(alloc, entry)?;
    match leaves.push(leaf) {
        Ok(()) => Ok(()),
        Err(_) => Err(NoMemory),
    }
}

/// Adds an entry in its place, given the first leaf that reaches it; an error leaves the entries as they were.
pub fn add(
    leaves: &mut Vec<Leaf>,
    alloc: Global,
    first: usize,
    entry: Bytes,
) -> Result<(), NoMemory>
    requires first { first ≡ first_reaching entry leaves.old.items }
    requires new { has_entry entry (joined leaves.old.items) ≡ false }
    requires none_empty { NoneEmpty leaves.old.items }
    ensures ok { OnOk result (joined leaves.new.items ≡ index_with_entry entry (joined leaves.old.items)) }
    ensures err { OnErr result (joined leaves.new.items ≡ joined leaves.old.items) }
    ensures none_empty { NoneEmpty leaves.new.items }
{
    if leaves.is_empty() {
        return add_first(leaves, alloc, entry);
    }
    let at = place_for(leaves, first);
    let at = room_in(leaves, at, entry.as_slice())?;
    add_with_room(leaves, at, entry)
}

/// Whether a leaf has no entry.
fn is_empty_at(leaves: &[Leaf], at: usize) -> bool
    requires { at < length leaves.now }
    ensures { IsTrue result ↔ (slice_index_or leaves.now at [] ≡ []) }
{
    leaves[at].is_empty()
}

/// Lets a leaf go where it has no entry.
fn drop_empty(leaves: &mut Vec<Leaf>, at: usize)
    requires inside { at < length leaves.old.items }
    requires others { NoneEmpty (remove leaves.old.items at) }
    ensures same { joined leaves.new.items ≡ joined leaves.old.items }
    ensures none_empty { NoneEmpty leaves.new.items }
{
    if is_empty_at(leaves, at) {
        leaves.remove(at);
    }
}

/// Takes an entry out, and tells whether it was there.
pub fn remove(leaves: &mut Vec<Leaf>, key: &[u8]) -> bool
    requires rising { IsRising (joined leaves.old.items) }
    requires none_empty { NoneEmpty leaves.old.items }
    ensures held { result ≡ has_entry key.now (joined leaves.old.items) }
    ensures rest { joined leaves.new.items ≡ without_entry key.now (joined leaves.old.items) }
    ensures none_empty { NoneEmpty leaves.new.items }
{
    let at = first_reaching(leaves, key);
    if at == leaves.len() {
        return false;
    }
    if !remove_at(leaves, at, key) {
        return false;
    }
    drop_empty(leaves, at);
    true
}
