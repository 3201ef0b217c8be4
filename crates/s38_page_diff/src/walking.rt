//! Which keys of an object are there.
ghost use Rattle.std.specs.Prelude.{◌≡◌, ◌^◌, ◌<◌, ◌≤◌, ℕ, IfSome, false, true};
ghost use Rattle.std.specs.FinMap.{contains_key};
ghost use Rattle.std.specs.Option.{unwrap_or};
ghost use Rattle.s38_base.specs.declared.page.Key.{Key};
ghost use Rattle.s38_vault.specs.Directory.{is_after};

use crate::range::PartRange;
use s38_base::Key;
use s38_vault::Vault;

/// The last key before a part of an object.
fn key_before(object: u64, part: u32) -> Option<Key>
    requires { 1 ≤ object }
    ensures from { (key : Key) → object ≤ key.object → (key.object ≡ object → part ≤ key.part) → is_after result key ≡ true }
    ensures object { (key : Key) → key.part < 2 ^ 32 → is_after result key ≡ true → object ≤ key.object }
    ensures part { (key : Key) → is_after result key ≡ true → key.object ≡ object → part ≤ key.part }
{
    let (object, part) = match part.checked_sub(1) {
        Some(before) => (object, before),
        None => (object - 1, u32::MAX),
    };
    Some(Key { object, part })
}

/// The first part of a range that has a page.
pub(crate) fn first_part<V: Vault>(vault: &V, range: PartRange) -> Option<u32>
    requires { 1 ≤ range.object }
    ensures there { IfSome result (λ part. contains_key (V.view vault.now).keys (record { object = range.object; part = part }) ≡ true) }
    ensures in_range { IfSome result (λ part. (range.first ≤ part) × (part < range.end)) }
    ensures none { (part : ℕ) → range.first ≤ part → part < unwrap_or result range.end → contains_key (V.view vault.now).keys (record { object = range.object; part = part }) ≡ false }
{
    let key = vault.next_key(key_before(range.object, range.first))?;
    if key.object == range.object && key.part < range.end {
        Some(key.part)
    } else {
        None
    }
}

/// Whether a key has a page.
pub fn is_there<V: Vault>(vault: &V, key: Key) -> bool
    requires { 1 ≤ key.object }
    ensures { result ≡ contains_key (V.view vault.now).keys key }
{
    match vault.next_key(key_before(key.object, key.part)) {
        Some(next) => next == key,
        None => false,
    }
}
