//! Changes wait until one put takes no more.
ghost use Rattle.std.specs.Prelude.{◌≡◌, ◌≢◌, ◌↔◌, ◌⊎◌, ◌<◌, ◌≤◌, ℕ, Err, IfErr, IfOk, OnOk, drop, length, take, true};
ghost use Rattle.s38_base.specs.Faults.{HasCauseOf};
ghost use Rattle.s38_page_diff.specs.FlushFaults.{IfBad, IsFullFor};
ghost use Rattle.s38_page_diff.specs.Puts.{IsAfterPuts};
ghost use Rattle.s38_page_diff.specs.reconcile.Placing.{IsCounted, IsPlaced};
ghost use Rattle.s38_page_diff.specs.declared.fault.FlushFault.TheVariants as faults;
ghost use Rattle.s38_vault.specs.Content.{AreRising, Content, HaveObjects, changed};
ghost use Rattle.s38_vault.specs.Directory.{new_keys};

use crate::reconcile::putting::{check_room, put_changes};
use crate::{FlushFault, has_room};
use s38_base::{Change, NoMemory};
use s38_vault::Vault;

/// Whether one put takes these changes.
fn is_one_put<V: Vault>(vault: &V, changes: &[Change]) -> bool
    requires { HaveObjects changes.now }
    ensures few { result ≡ true → length changes.now ≤ (V.view vault.now).shape.most }
    ensures room { result ≡ true → new_keys (V.view vault.now).keys changes.now ≤ (V.view vault.now).free }
    ensures counted { IsCounted V.view V.holds vault.now }
{
    let fits = changes.len() <= vault.free() as usize || has_room(vault, changes);
    fits && changes.len() <= vault.most() as usize
}

/// Gives the changes after a mark; an error leaves them where they are.
fn split(changes: &mut Vec<Change>, mark: usize) -> Result<Vec<Change>, NoMemory>
    requires { mark ≤ length changes.old.items }
    ensures front { OnOk result (changes.new.items ≡ take mark changes.old.items) }
    ensures rest { IfOk result (λ rest. rest.items ≡ drop mark changes.old.items) }
{
    match changes.split_off(mark) {
        Ok(rest) => Ok(rest),
        Err(_) => Err(NoMemory),
    }
}

/// Makes place for the changes after a mark. Where one put takes all changes, all wait. Else those before the mark are put,
/// and the others wait alone: `Full` where they bring more keys than there are free parts then, whatever keys they take away.
pub fn make_place<V: Vault>(
    vault: &mut V,
    changes: &mut Vec<Change>,
    mark: usize,
) -> Result<(), FlushFault>
    requires rising { AreRising changes.old.items }
    requires objects { HaveObjects changes.old.items }
    requires mark { mark ≤ length changes.old.items }
    requires room { new_keys (V.view vault.old).keys (take mark changes.old.items) ≤ (V.view vault.old).free }

    ensures placed { OnOk result (IsPlaced V.holds vault.old vault.new (V.view vault.old).shape.most mark changes.old.items changes.new.items) }
    ensures room { OnOk result (new_keys (V.view vault.new).keys changes.new.items ≤ (V.view vault.new).free) }
    ensures counted { OnOk result (IsCounted V.view V.holds vault.new) }

    // Where it is full, those before the mark are put; where memory was refused, all of those or none.
    ensures full { IfErr result (λ fault. IsFullFor (new_keys (V.view vault.new).keys (drop mark changes.old.items)) (V.view vault.new).free fault) }
    ensures bad { IfErr result (IfBad ⊥) }
    ensures full_counted { (needed free : ℕ) → result ≡ Err (faults.Full needed free) → IsCounted V.view V.holds vault.new }
    ensures front { (needed free : ℕ) → result ≡ Err (faults.Full needed free) → (m : Content) → V.holds vault.old m → V.holds vault.new (changed m (take mark changes.old.items)) }
    ensures stopped { IfErr result (λ fault. fault ≢ faults.Failed → (m : Content) → V.holds vault.old m → V.holds vault.new m ⊎ V.holds vault.new (changed m (take mark changes.old.items))) }

    // A crash leaves what was held after some of the puts of those before the mark.
    ensures past { (t : ℕ) (m : Content) → t ≤ (V.view vault.old).moment → V.leaves vault.old t m ↔ V.leaves vault.new t m }
    ensures during { (m : Content) → V.holds vault.old m → (t : ℕ) (n : Content) → (V.view vault.old).moment < t → t ≤ (V.view vault.new).moment → V.leaves vault.new t n → IsAfterPuts (V.view vault.old).shape.most m (take mark changes.old.items) n }
    ensures later { (V.view vault.old).moment ≤ (V.view vault.new).moment }

    // Faults, and what no call changes.
    ensures shape { (V.view vault.new).shape ≡ (V.view vault.old).shape }
    ensures cause { HasCauseOf (V.view vault.old).faults (V.view vault.new).faults result faults.Failed }
    ensures count { OnOk result ((V.view vault.new).faults ≡ (V.view vault.old).faults) }
{
    if is_one_put(vault, changes) {
        return Ok(());
    }
    let rest = split(changes, mark)?;
    put_changes(vault, changes)?;
    *changes = rest;
    check_room(vault, changes)
}
