ghost use Rattle.std.specs.Prelude.{◌≡◌, ◌+◌, ◌≤◌, ◌++◌, false, insert, length, not, slice_get, true, IfOk, OnOk, OnErr};
ghost use Rattle.std.specs.Option.{option_copied};
ghost use Rattle.s38_base.specs.declared.words.Relation.TheVariants.{Eq};
ghost use Rattle.s38_indexes.specs.Entries.{IsRising, asks_for_greatest, greatest, has_entry, index_with_entry, is_in_relation, least, place_of_key, without_entry};
ghost use Rattle.s38_indexes.specs.Leaves.{front, has, is_equal_to, least_past, passes};

use s38_base::{Bytes, NoMemory, Relation};

fn fits(entry: &Bytes, relation: Relation, key: &[u8]) -> bool
    ensures { result ≡ is_in_relation relation key.now entry.now }
{
    relation.holds(entry.as_slice().cmp(key))
}

/// Whether an entry equals a key.
pub fn equals(entry: &Bytes, key: &[u8]) -> bool
    ensures { result ≡ is_in_relation Eq key.now entry.now }
{
    fits(entry, Relation::Eq, key)
}

/// The entry at a place.
fn entry_at(entries: &[Bytes], at: usize) -> Option<&Bytes>
    ensures { option_copied result ≡ slice_get entries.now at }
{
    entries.get(at)
}

/// How many entries are in relation LO, NH or LAST to a key. All of these are at the front.
fn front(entries: &[Bytes], relation: Relation, key: &[u8]) -> usize
    requires rising { IsRising entries.now }
    requires downward { asks_for_greatest relation ≡ true }
    ensures value { result ≡ front relation key.now entries.now }
    ensures bound { result ≤ length entries.now }
{
    entries.partition_point(|entry| fits(entry, relation, key))
}

/// Whether an entry is in relation LO, NH or LAST to a key, as the first of them tells.
pub fn has(entries: &[Bytes], relation: Relation, key: &[u8]) -> bool
    requires rising { IsRising entries.now }
    requires downward { asks_for_greatest relation ≡ true }
    ensures { result ≡ has relation key.now entries.now }
{
    match entries.first() {
        Some(first) => fits(first, relation, key),
        None => false,
    }
}

/// Whether an entry is not in relation LO, NH or LAST to a key, as the last of them tells.
pub fn passes(entries: &[Bytes], relation: Relation, key: &[u8]) -> bool
    requires rising { IsRising entries.now }
    requires downward { asks_for_greatest relation ≡ true }
    ensures { result ≡ passes relation key.now entries.now }
{
    match entries.last() {
        Some(last) => !fits(last, relation, key),
        None => false,
    }
}

/// The least entry that is not in relation LO, NH or LAST to a key.
pub fn least_past<'a>(entries: &'a [Bytes], relation: Relation, key: &[u8]) -> Option<&'a Bytes>
    requires rising { IsRising entries.now }
    requires downward { asks_for_greatest relation ≡ true }
    ensures { option_copied result ≡ least_past relation key.now entries.now }
{
    entry_at(entries, front(entries, relation, key))
}

/// The greatest entry that is in relation LO, NH or LAST to a key.
pub fn greatest<'a>(entries: &'a [Bytes], relation: Relation, key: &[u8]) -> Option<&'a Bytes>
    requires rising { IsRising entries.now }
    requires downward { asks_for_greatest relation ≡ true }
    ensures { option_copied result ≡ greatest relation key.now entries.now }
{
    let front = front(entries, relation, key);
    if front == 0 {
        return None;
    }
    entry_at(entries, front - 1)
}

/// The least entry that is in a relation to a key, sought from the first on.
pub fn least<'a>(entries: &'a [Bytes], relation: Relation, key: &[u8]) -> Option<&'a Bytes>
    ensures { option_copied result ≡ least relation key.now entries.now }
{
    entries.iter().find(|entry| fits(entry, relation, key))
}

/// The place of the first entry that does not come before a key, or how many entries there are.
fn place(entries: &[Bytes], key: &[u8]) -> usize
    requires { IsRising entries.now }
    ensures value { result ≡ place_of_key key.now entries.now }
    ensures bound { result ≤ length entries.now }
{
    front(entries, Relation::Lo, key)
}

/// Adds an entry at a place; an error leaves the entries as they were.
fn insert_at(entries: &mut Vec<Bytes>, at: usize, entry: Bytes) -> Result<(), NoMemory>
    requires { at ≤ length entries.old.items }
    ensures ok { OnOk result (entries.new.items ≡ insert entries.old.items at entry) }
    ensures err { OnErr result (entries.new.items ≡ entries.old.items) }
{
    match entries.insert(at, entry) {
        Ok(()) => Ok(()),
        Err(_) => Err(NoMemory),
    }
}

/// Adds an entry in its place; an error leaves the entries as they were.
pub fn add(entries: &mut Vec<Bytes>, entry: Bytes) -> Result<(), NoMemory>
    requires { IsRising entries.old.items }
    ensures ok { OnOk result (entries.new.items ≡ index_with_entry entry entries.old.items) }
    ensures err { OnErr result (entries.new.items ≡ entries.old.items) }
{
    let at = place(entries, entry.as_slice());
    insert_at(entries, at, entry)
}

/// Whether the entry at a place is there, and equals a key.
fn equals_at(entries: &[Bytes], at: usize, key: &[u8]) -> bool
    ensures { result ≡ is_equal_to key.now (slice_get entries.now at) }
{
    match entry_at(entries, at) {
        Some(entry) => equals(entry, key),
        None => false,
    }
}

/// Whether there is an entry.
pub fn holds(entries: &[Bytes], key: &[u8]) -> bool
    requires { IsRising entries.now }
    ensures { result ≡ has_entry key.now entries.now }
{
    equals_at(entries, place(entries, key), key)
}

/// Takes an entry out, and tells whether it was there.
pub fn remove(entries: &mut Vec<Bytes>, key: &[u8]) -> bool
    requires { IsRising entries.old.items }
    ensures held { result ≡ has_entry key.now entries.old.items }
    ensures rest { entries.new.items ≡ without_entry key.now entries.old.items }
{
    let at = place(entries, key);
    if !equals_at(entries, at, key) {
        return false;
    }
    entries.remove(at);
    true
}

/// Gives the entries from a place on away; an error leaves them as they were.
pub fn split(entries: &mut Vec<Bytes>, at: usize) -> Result<Vec<Bytes>, NoMemory>
    requires { at ≤ length entries.old.items }
    ensures ok { IfOk result (λ upper. entries.new.items ++ upper.items ≡ entries.old.items) }
    ensures lower { OnOk result (length entries.new.items ≡ at) }
    ensures upper { IfOk result (λ upper. length upper.items + at ≡ length entries.old.items) }
    ensures err { OnErr result (entries.new.items ≡ entries.old.items) }
{
    match entries.split_off(at) {
        Ok(upper) => Ok(upper),
        Err(_) => Err(NoMemory),
    }
}
