//! Changes are made where there is room for them.
ghost use Rattle.std.specs.Prelude.{◌≡◌, ◌≢◌, ◌↔◌, ◌<◌, ◌≤◌, ℕ, IfErr, OnErr, OnOk, length};
ghost use Rattle.s38_base.specs.Faults.{HasCauseOf};
ghost use Rattle.s38_page_diff.specs.FlushFaults.{IfBad, IsFullFor};
ghost use Rattle.s38_page_diff.specs.Puts.{IsAfterPuts};
ghost use Rattle.s38_page_diff.specs.declared.fault.FlushFault.TheVariants as faults;
ghost use Rattle.s38_page_diff.specs.reconcile.Placing.{IsCounted};
ghost use Rattle.s38_vault.specs.Content.{AreRising, Content, HaveObjects, changed};
ghost use Rattle.s38_vault.specs.Directory.{new_keys};

use crate::{FlushFault, count_new, put_all};
use s38_base::Change;
use s38_vault::Vault;

/// Whether there are free parts for all new keys, whatever keys changes take away: `Full` where there are too few.
pub(crate) fn check_room<V: Vault>(vault: &V, changes: &[Change]) -> Result<(), FlushFault>
    requires { HaveObjects changes.now }
    ensures room { OnOk result (new_keys (V.view vault.now).keys changes.now ≤ (V.view vault.now).free) }
    ensures full { IfErr result (λ fault. IsFullFor (new_keys (V.view vault.now).keys changes.now) (V.view vault.now).free fault) }
    ensures bad { IfErr result (IfBad ⊥) }
    ensures failed { IfErr result (λ fault. fault ≢ faults.Failed) }
    ensures memory { IfErr result (λ fault. fault ≢ faults.NoMemory) }
    ensures counted { IsCounted V.view V.holds vault.now }
{
    let needed = count_new(vault, changes);
    let free = vault.free();
    if needed > free as usize {
        let needed = needed as u64;
        return Err(FlushFault::Full { needed, free });
    }
    Ok(())
}

/// Makes room for changes: there are free parts for all new keys, and memory for all puts. Nothing else is changed.
fn make_room<V: Vault>(vault: &mut V, changes: &[Change]) -> Result<(), FlushFault>
    requires { HaveObjects changes.now }
    ensures room { OnOk result (new_keys (V.view vault.old).keys changes.now ≤ (V.view vault.old).free) }
    ensures spare { OnOk result (length changes.now ≤ (V.view vault.new).spare) }
    ensures full { IfErr result (λ fault. IsFullFor (new_keys (V.view vault.old).keys changes.now) (V.view vault.old).free fault) }
    ensures bad { IfErr result (IfBad ⊥) }
    ensures failed { IfErr result (λ fault. fault ≢ faults.Failed) }
    ensures stays { V.view vault.new ≡ record (V.view vault.old) { spare = (V.view vault.new).spare } }
    ensures holds { (m : Content) → V.holds vault.old m ↔ V.holds vault.new m }
    ensures past { (t : ℕ) (m : Content) → t ≤ (V.view vault.old).moment → V.leaves vault.old t m ↔ V.leaves vault.new t m }
{
    check_room(vault, changes)?;
    if changes.len() > u32::MAX as usize {
        return Err(FlushFault::NoMemory);
    }
    vault.reserve(changes.len() as u32)?;
    Ok(())
}

/// Makes all changes, which are of rising keys, in puts of as many as the vault takes, the first changes first. `Full` where
/// they bring more keys than there are free parts, whatever keys they take away. Before the first put all memory is
/// reserved. After `Failed` the vault may no longer tell what it holds.
pub fn put_changes<V: Vault>(vault: &mut V, changes: &[Change]) -> Result<(), FlushFault>
    requires rising { AreRising changes.now }
    requires objects { HaveObjects changes.now }

    // All is as told.
    ensures holds { OnOk result ((m : Content) → V.holds vault.old m → V.holds vault.new (changed m changes.now)) }
    ensures told { OnOk result ((n : Content) → V.holds vault.new n → (m : Content) × (V.holds vault.old m × (n ≡ changed m changes.now))) }
    ensures room { OnOk result (new_keys (V.view vault.old).keys changes.now ≤ (V.view vault.old).free) }

    // Where it is full, or memory was refused, nothing was changed; after any error it holds what it held, if it still tells.
    ensures full { IfErr result (λ fault. IsFullFor (new_keys (V.view vault.old).keys changes.now) (V.view vault.old).free fault) }
    ensures bad { IfErr result (IfBad ⊥) }
    ensures refused { IfErr result (λ fault. fault ≢ faults.Failed → V.view vault.new ≡ record (V.view vault.old) { spare = (V.view vault.new).spare }) }
    ensures refused_holds { IfErr result (λ fault. fault ≢ faults.Failed → (m : Content) → V.holds vault.old m ↔ V.holds vault.new m) }
    ensures err { OnErr result ((m : Content) → V.holds vault.new m → V.holds vault.old m) }

    // A crash leaves what was held after some of the puts.
    ensures past { (t : ℕ) (m : Content) → t ≤ (V.view vault.old).moment → V.leaves vault.old t m ↔ V.leaves vault.new t m }
    ensures during { (m : Content) → V.holds vault.old m → (t : ℕ) (n : Content) → (V.view vault.old).moment < t → t ≤ (V.view vault.new).moment → V.leaves vault.new t n → IsAfterPuts (V.view vault.old).shape.most m changes.now n }
    ensures after { OnOk result ((m n : Content) → V.holds vault.old m → V.leaves vault.new (V.view vault.new).moment n → n ≡ changed m changes.now) }
    ensures later { (V.view vault.old).moment ≤ (V.view vault.new).moment }

    // Faults, and what no call changes.
    ensures shape { (V.view vault.new).shape ≡ (V.view vault.old).shape }
    ensures cause { HasCauseOf (V.view vault.old).faults (V.view vault.new).faults result faults.Failed }
    ensures count { OnOk result ((V.view vault.new).faults ≡ (V.view vault.old).faults) }
{
    make_room(vault, changes)?;
    put_all(vault, changes)?;
    Ok(())
}
