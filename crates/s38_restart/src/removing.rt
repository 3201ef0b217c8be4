//! Parts that are taken away.
ghost use Rattle.std.specs.Prelude.{◌≡◌, ◌≤◌, ◌<◌, ◌↔◌, ℕ, [], IfErr, OnOk, length, take};
ghost use Rattle.s38_base.specs.Faults.{HasCauseOf};
ghost use Rattle.s38_restart.specs.Removing.{AreRemovals};
ghost use Rattle.s38_restart.specs.declared.fault.RestartFault.TheVariants as RestartFault;
ghost use Rattle.s38_vault.specs.Content.{AreRising, Content, HaveObjects, changed};

use crate::fault::RestartFault;
use s38_base::Change;
use s38_vault::Vault;

/// Makes changes that take parts away, in puts of as many as one takes. Nothing is put where there is no change. A crash on
/// the way leaves the first ones made.
pub fn remove_all<V: Vault>(vault: &mut V, changes: &[Change]) -> Result<(), RestartFault>
    requires removals { AreRemovals changes.now }
    requires rising { AreRising changes.now }
    requires objects { HaveObjects changes.now }
    requires room { length changes.now ≤ (V.view vault.old).spare }
    ensures holds { OnOk result ((m : Content) → V.holds vault.old m → V.holds vault.new (changed m changes.now)) }
    ensures none { changes.now ≡ [] → V.view vault.new ≡ V.view vault.old }
    ensures past { (t : ℕ) (m : Content) → t ≤ (V.view vault.old).moment → V.leaves vault.old t m ↔ V.leaves vault.new t m }
    ensures during { (m : Content) → V.holds vault.old m → (t : ℕ) (n : Content) → (V.view vault.old).moment < t → t ≤ (V.view vault.new).moment → V.leaves vault.new t n
        → (count : ℕ) × (n ≡ changed m (take count changes.now)) }
    ensures later { (V.view vault.old).moment ≤ (V.view vault.new).moment }
    ensures shape { (V.view vault.new).shape ≡ (V.view vault.old).shape }
    ensures failed { IfErr result (λ fault. fault ≡ RestartFault.Failed) }
    ensures cause { HasCauseOf (V.view vault.old).faults (V.view vault.new).faults result RestartFault.Failed }
    ensures count { OnOk result ((V.view vault.new).faults ≡ (V.view vault.old).faults) }
{
    let most = vault.most() as usize;
    let mut done = 0;
    while done < changes.len() {
        let end = done + most.min(changes.len() - done);
        match vault.put(&changes[done..end]) {
            Ok(()) => done = end,
            Err(_) => return Err(RestartFault::Failed),
        }
    }
    Ok(())
}
