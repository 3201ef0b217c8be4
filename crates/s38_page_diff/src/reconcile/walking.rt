//! Which numbers have pages in a vault.
ghost use Rattle.std.specs.Prelude.{◌≡◌, ◌<◌, ◌≤◌, ◌^◌, ◌-◌, IfSome, None, false, true};
ghost use Rattle.std.specs.FinMap.{contains_key};
ghost use Rattle.s38_base.specs.declared.page.Key.{Key};
ghost use Rattle.s38_page_diff.specs.reconcile.Walking.{last_key};
ghost use Rattle.s38_vault.specs.Directory.{is_after};

use s38_base::Key;
use s38_vault::Vault;

/// The last key of the numbers up to one, none of number 0.
fn last_key(done: u64) -> Option<Key>
    ensures { result ≡ last_key done }
{
    if done == 0 {
        return None;
    }
    Some(Key {
        object: done,
        part: u32::MAX,
    })
}

/// The least number after one that has a page, not above another number.
pub fn next_number<V: Vault>(vault: &V, done: u64, upto: u64) -> Option<u64>
    ensures behind { IfSome result (λ number. done < number) }
    ensures within { IfSome result (λ number. number ≤ upto) }
    ensures before { IfSome result (λ number. (key : Key) → is_after (last_key done) key ≡ true → key.object < number → contains_key (V.view vault.now).keys key ≡ false) }
    ensures none { result ≡ None → (key : Key) → is_after (last_key done) key ≡ true → key.object ≤ upto → contains_key (V.view vault.now).keys key ≡ false }
    ensures rest { 2 ^ 64 - 1 ≤ upto → result ≡ None → (key : Key) → is_after (last_key done) key ≡ true → contains_key (V.view vault.now).keys key ≡ false }
{
    let key = vault.next_key(last_key(done))?;
    if key.object <= upto {
        Some(key.object)
    } else {
        None
    }
}
