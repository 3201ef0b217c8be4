//! Whether there is room for what changes bring.
ghost use Rattle.std.specs.Prelude.{◌≡◌, ◌↔◌, ◌≤◌, IsTrue};
ghost use Rattle.s38_vault.specs.Content.{HaveObjects};
ghost use Rattle.s38_vault.specs.Directory.{is_new, new_keys};

use crate::walking::is_there;
use s38_base::Change;
use s38_vault::Vault;

/// Whether a change brings a key that has no page.
fn is_new<V: Vault>(vault: &V, change: &Change) -> bool
    requires { 1 ≤ change.now.key.object }
    ensures { result ≡ is_new (V.view vault.now).keys change.now }
{
    change.page.is_some() && !is_there(vault, change.key)
}

/// How many keys changes bring that have no page.
pub fn count_new<V: Vault>(vault: &V, changes: &[Change]) -> usize
    requires { HaveObjects changes.now }
    ensures { result ≡ new_keys (V.view vault.now).keys changes.now }
{
    let mut count = 0;
    for change in changes {
        if is_new(vault, change) {
            count += 1;
        }
    }
    count
}

/// Whether the keys that changes bring fit into the free parts, whatever keys the changes take away.
pub fn has_room<V: Vault>(vault: &V, changes: &[Change]) -> bool
    requires { HaveObjects changes.now }
    ensures { IsTrue result ↔ (new_keys (V.view vault.now).keys changes.now ≤ (V.view vault.now).free) }
{
    count_new(vault, changes) <= vault.free() as usize
}
