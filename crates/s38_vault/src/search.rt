ghost use Rattle.std.specs.Prelude.{◌≡◌, ◌≤◌, IsTrue, Some, length, map, slice_get};
ghost use Rattle.std.specs.FinMap.{find, is_sorted};
ghost use Rattle.std.specs.List.{position_or_len};
ghost use Rattle.std.specs.Ordering.{eq_by_cmp, is_lt};
ghost use Rattle.s38_vault.specs.Directory.{is_after, next_among};
ghost use Rattle.s38_vault.specs.Keyed.{is_of, place, value_of};
ghost use Rattle.s38_vault.specs.Keys.{key_cmp};

use s38_base::Key;

/// Whether one key comes before another.
fn is_before(a: Key, b: Key) -> bool
    ensures { result ≡ is_lt (key_cmp a b) }
{
    a.cmp(&b).is_lt()
}

/// Whether two keys are one.
fn is_same(a: Key, b: Key) -> bool
    ensures { result ≡ eq_by_cmp key_cmp a b }
{
    a.cmp(&b).is_eq()
}

/// Where the first entry is whose key does not come before this one, or how many entries there are.
pub fn place<V>(entries: &[(Key, V)], key: Key) -> usize
    requires { IsTrue (is_sorted key_cmp entries.now) }
    ensures value { result ≡ place key entries.now }
    ensures bound { result ≤ length entries.now }
{
    entries.partition_point(|entry| is_before(entry.0, key))
}

/// Whether the entry at a place is there, and has this key.
pub fn is_at<V>(entries: &[(Key, V)], at: usize, key: Key) -> bool
    ensures { result ≡ is_of key (slice_get entries.now at) }
{
    match entries.get(at) {
        Some(entry) => is_same(entry.0, key),
        None => false,
    }
}

/// The value of an entry, if the entry has this key.
fn value_of<V: Copy>(entry: &(Key, V), key: Key) -> Option<V>
    ensures { result ≡ value_of key (Some entry.now) }
{
    if is_same(entry.0, key) {
        Some(entry.1)
    } else {
        None
    }
}

/// The value at a place, if there is an entry that has this key.
fn value_at<V: Copy>(entries: &[(Key, V)], at: usize, key: Key) -> Option<V>
    ensures { result ≡ value_of key (slice_get entries.now at) }
{
    match entries.get(at) {
        Some(entry) => value_of(entry, key),
        None => None,
    }
}

/// The value of a key.
pub fn find<V: Copy>(entries: &[(Key, V)], key: Key) -> Option<V>
    requires { IsTrue (is_sorted key_cmp entries.now) }
    ensures { result ≡ find key_cmp key entries.now }
{
    value_at(entries, place(entries, key), key)
}

/// Where the first entry is whose key comes after another, or how many entries there are.
fn place_after<V>(entries: &[(Key, V)], key: Key) -> usize
    requires { IsTrue (is_sorted key_cmp entries.now) }
    ensures { result ≡ position_or_len (λ entry. is_lt (key_cmp key entry.0)) entries.now }
{
    entries.partition_point(|entry| !is_before(key, entry.0))
}

/// The key at a place.
fn key_at<V>(entries: &[(Key, V)], at: usize) -> Option<Key>
    ensures { result ≡ slice_get (map (λ entry. entry.0) entries.now) at }
{
    match entries.get(at) {
        Some(entry) => Some(entry.0),
        None => None,
    }
}

/// The least key after one, or the least of all.
pub fn next_key<V>(entries: &[(Key, V)], after: Option<Key>) -> Option<Key>
    requires { IsTrue (is_sorted key_cmp entries.now) }
    ensures { result ≡ next_among (map (λ entry. entry.0) entries.now) after }
{
    match after {
        Some(key) => key_at(entries, place_after(entries, key)),
        None => key_at(entries, 0),
    }
}
