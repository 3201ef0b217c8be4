ghost use Rattle.std.specs.Prelude.{◌≡◌, ◌≤◌, false, length, true};
ghost use Rattle.std.specs.Option.{option_copied};
ghost use Rattle.std.specs.List.{AllWithin, position_or_len};
ghost use Rattle.s38_base.specs.declared.words.Relation.TheVariants.{Eq};
ghost use Rattle.s38_indexes.specs.Entries.{IsRising, asks_for_greatest, entry_found, greatest, has_entry, least};
ghost use Rattle.s38_indexes.specs.Leaves.{NoneEmpty, first_reaching, has, joined, least_past, passes};

use crate::entries;
use crate::leaf::Leaf;
use s38_base::{Bytes, Relation};

/// The first leaf that has an entry that is not in relation LO, NH or LAST to a key, or how many leaves there are.
fn first_passing(leaves: &[Leaf], relation: Relation, key: &[u8]) -> usize
    requires rising { IsRising (joined leaves.now) }
    requires none_empty { NoneEmpty leaves.now }
    requires downward { asks_for_greatest relation ≡ true }
    ensures value { result ≡ position_or_len (passes relation key.now) leaves.now }
    ensures bound { result ≤ length leaves.now }
{
    leaves.partition_point(|leaf| !leaf.passes(relation, key))
}

/// How many leaves have an entry that is in relation LO, NH or LAST to a key. All of these are at the front.
fn count_having(leaves: &[Leaf], relation: Relation, key: &[u8]) -> usize
    requires rising { IsRising (joined leaves.now) }
    requires none_empty { NoneEmpty leaves.now }
    requires downward { asks_for_greatest relation ≡ true }
    ensures first { AllWithin (λ leaf. has relation key.now leaf ≡ true) leaves.now 0 result }
    ensures rest { AllWithin (λ leaf. has relation key.now leaf ≡ false) leaves.now result (length leaves.now) }
    ensures bound { result ≤ length leaves.now }
{
    leaves.partition_point(|leaf| leaf.has(relation, key))
}

/// The least entry that is not in relation LO, NH or LAST to a key.
fn least_past<'a>(leaves: &'a [Leaf], relation: Relation, key: &[u8]) -> Option<&'a Bytes>
    requires rising { IsRising (joined leaves.now) }
    requires none_empty { NoneEmpty leaves.now }
    requires downward { asks_for_greatest relation ≡ true }
    ensures { option_copied result ≡ least_past relation key.now (joined leaves.now) }
{
    let at = first_passing(leaves, relation, key);
    if at == leaves.len() {
        return None;
    }
    leaves[at].least_past(relation, key)
}

/// The greatest entry that is in relation LO, NH or LAST to a key.
fn greatest<'a>(leaves: &'a [Leaf], relation: Relation, key: &[u8]) -> Option<&'a Bytes>
    requires rising { IsRising (joined leaves.now) }
    requires none_empty { NoneEmpty leaves.now }
    requires downward { asks_for_greatest relation ≡ true }
    ensures { option_copied result ≡ greatest relation key.now (joined leaves.now) }
{
    let count = count_having(leaves, relation, key);
    if count == 0 {
        return None;
    }
    leaves[count - 1].greatest(relation, key)
}

/// The least entry that is in a relation to a key, sought from the first on.
fn least<'a>(leaves: &'a [Leaf], relation: Relation, key: &[u8]) -> Option<&'a Bytes>
    ensures { option_copied result ≡ least relation key.now (joined leaves.now) }
{
    for leaf in leaves {
        if let Some(entry) = leaf.least(relation, key) {
            return Some(entry);
        }
    }
    None
}

/// The entry that equals a key.
fn equal<'a>(leaves: &'a [Leaf], key: &[u8]) -> Option<&'a Bytes>
    requires rising { IsRising (joined leaves.now) }
    requires none_empty { NoneEmpty leaves.now }
    ensures { option_copied result ≡ least Eq key.now (joined leaves.now) }
{
    let entry = least_past(leaves, Relation::Lo, key)?;
    if entries::equals(entry, key) {
        Some(entry)
    } else {
        None
    }
}

/// The entry that a search finds.
pub fn found<'a>(leaves: &'a [Leaf], relation: Relation, key: &[u8]) -> Option<&'a Bytes>
    requires rising { IsRising (joined leaves.now) }
    requires none_empty { NoneEmpty leaves.now }
    ensures { option_copied result ≡ entry_found relation key.now (joined leaves.now) }
{
    match relation {
        Relation::Eq => equal(leaves, key),
        Relation::Nl => least_past(leaves, Relation::Lo, key),
        Relation::Hi => least_past(leaves, Relation::Nh, key),
        Relation::Lo | Relation::Nh | Relation::Last => greatest(leaves, relation, key),
        Relation::Ne | Relation::Any | Relation::First => least(leaves, relation, key),
    }
}

/// Whether an entry is in a leaf.
pub fn holds(leaves: &[Leaf], key: &[u8]) -> bool
    requires rising { IsRising (joined leaves.now) }
    requires none_empty { NoneEmpty leaves.now }
    ensures { result ≡ has_entry key.now (joined leaves.now) }
{
    equal(leaves, key).is_some()
}

/// The first leaf that has an entry that does not come before a key, or how many leaves there are.
pub fn first_reaching(leaves: &[Leaf], key: &[u8]) -> usize
    requires rising { IsRising (joined leaves.now) }
    requires none_empty { NoneEmpty leaves.now }
    ensures value { result ≡ first_reaching key.now leaves.now }
    ensures bound { result ≤ length leaves.now }
{
    first_passing(leaves, Relation::Lo, key)
}

/// Whether an entry is there: the first leaf that has an entry that does not come before it would have it.
pub fn holds_at(leaves: &[Leaf], at: usize, key: &[u8]) -> bool
    requires rising { IsRising (joined leaves.now) }
    requires first { at ≡ first_reaching key.now leaves.now }
    ensures { result ≡ has_entry key.now (joined leaves.now) }
{
    at < leaves.len() && leaves[at].holds(key)
}
