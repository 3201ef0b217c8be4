//! Changes are made in puts that a vault takes.
ghost use Rattle.std.specs.Prelude.{◌≡◌, ◌↔◌, ◌⊎◌, ◌+◌, ◌<◌, ◌≤◌, ℕ, OnErr, OnOk, length};
ghost use Rattle.s38_base.specs.Faults.{HasCause, Rose};
ghost use Rattle.s38_page_diff.specs.Puts.{IsAfterPuts};
ghost use Rattle.s38_vault.specs.Content.{AreRising, Content, HaveObjects, changed};
ghost use Rattle.s38_vault.specs.Directory.{changed_keys, gone_keys, new_keys};

use s38_base::{Change, Failed};
use s38_vault::Vault;

/// Makes some changes in one put. There is to be room for all new keys, so it is not refused.
fn put_some<V: Vault>(vault: &mut V, changes: &[Change]) -> Result<(), Failed>
    requires some { 1 ≤ length changes.now }
    requires few { length changes.now ≤ (V.view vault.old).shape.most }
    requires rising { AreRising changes.now }
    requires objects { HaveObjects changes.now }
    requires spare { length changes.now ≤ (V.view vault.old).spare }
    requires room { new_keys (V.view vault.old).keys changes.now ≤ (V.view vault.old).free }

    // All is as told, or the outside failed.
    ensures holds { OnOk result ((m : Content) → V.holds vault.old m → V.holds vault.new (changed m changes.now)) }
    ensures told { OnOk result ((n : Content) → V.holds vault.new n → (m : Content) × (V.holds vault.old m × (n ≡ changed m changes.now))) }
    ensures keys { OnOk result ((V.view vault.new).keys ≡ changed_keys (V.view vault.old).keys changes.now) }
    ensures free { OnOk result ((V.view vault.new).free + new_keys (V.view vault.old).keys changes.now ≡ (V.view vault.old).free + gone_keys (V.view vault.old).keys changes.now) }
    ensures failed { OnErr result ((m : Content) → V.holds vault.new m → ⊥) }

    // A crash leaves what was held before, or what is held after.
    ensures past { (t : ℕ) (m : Content) → t ≤ (V.view vault.old).moment → V.leaves vault.old t m ↔ V.leaves vault.new t m }
    ensures during { (m : Content) → V.holds vault.old m → (t : ℕ) (n : Content) → (V.view vault.old).moment < t → t ≤ (V.view vault.new).moment → V.leaves vault.new t n → (n ≡ m) ⊎ (n ≡ changed m changes.now) }
    ensures later { (V.view vault.old).moment ≤ (V.view vault.new).moment }
    ensures rises { OnOk result (Rose (V.view vault.old).moment (V.view vault.new).moment) }

    // Memory, faults, and what no call changes.
    ensures spare { (V.view vault.old).spare ≤ (V.view vault.new).spare + length changes.now }
    ensures shape { (V.view vault.new).shape ≡ (V.view vault.old).shape }
    ensures cause { HasCause (V.view vault.old).faults (V.view vault.new).faults result }
    ensures count { OnOk result ((V.view vault.new).faults ≡ (V.view vault.old).faults) }
{
    match vault.put(changes) {
        Ok(()) => Ok(()),
        Err(_) => Err(Failed),
    }
}

/// Makes all changes, which are of rising keys, in puts of as many as the vault takes, the first changes first. Without a
/// change no put is made. There is to be room for all new keys, whatever keys the changes take away, so no put is
/// refused. After an error the vault no longer tells what it holds.
pub fn put_all<V: Vault>(vault: &mut V, changes: &[Change]) -> Result<(), Failed>
    requires rising { AreRising changes.now }
    requires objects { HaveObjects changes.now }
    requires spare { length changes.now ≤ (V.view vault.old).spare }
    requires room { new_keys (V.view vault.old).keys changes.now ≤ (V.view vault.old).free }

    // All is as told, or the outside failed.
    ensures holds { OnOk result ((m : Content) → V.holds vault.old m → V.holds vault.new (changed m changes.now)) }
    ensures told { OnOk result ((n : Content) → V.holds vault.new n → (m : Content) × (V.holds vault.old m × (n ≡ changed m changes.now))) }
    ensures keys { OnOk result ((V.view vault.new).keys ≡ changed_keys (V.view vault.old).keys changes.now) }
    ensures free { OnOk result ((V.view vault.new).free + new_keys (V.view vault.old).keys changes.now ≡ (V.view vault.old).free + gone_keys (V.view vault.old).keys changes.now) }
    ensures failed { OnErr result ((m : Content) → V.holds vault.new m → ⊥) }
    ensures none { length changes.now ≡ 0 → vault.new ≡ vault.old }

    // A crash leaves what was held after some of the puts: before the first, or after the last, or between two.
    ensures past { (t : ℕ) (m : Content) → t ≤ (V.view vault.old).moment → V.leaves vault.old t m ↔ V.leaves vault.new t m }
    ensures during { (m : Content) → V.holds vault.old m → (t : ℕ) (n : Content) → (V.view vault.old).moment < t → t ≤ (V.view vault.new).moment → V.leaves vault.new t n → IsAfterPuts (V.view vault.old).shape.most m changes.now n }
    ensures after { OnOk result ((m n : Content) → V.holds vault.old m → V.leaves vault.new (V.view vault.new).moment n → n ≡ changed m changes.now) }
    ensures later { (V.view vault.old).moment ≤ (V.view vault.new).moment }
    ensures rises { OnOk result (1 ≤ length changes.now → Rose (V.view vault.old).moment (V.view vault.new).moment) }

    // Memory, faults, and what no call changes.
    ensures spare { (V.view vault.old).spare ≤ (V.view vault.new).spare + length changes.now }
    ensures shape { (V.view vault.new).shape ≡ (V.view vault.old).shape }
    ensures cause { HasCause (V.view vault.old).faults (V.view vault.new).faults result }
    ensures count { OnOk result ((V.view vault.new).faults ≡ (V.view vault.old).faults) }
{
    for chunk in changes.chunks(vault.most() as usize) {
        put_some(vault, chunk)?;
    }
    // Its contract says what a crash leaves now.
    let _moment = vault.moment();
    Ok(())
}
