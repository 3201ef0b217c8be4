//! The parts of a store, read.
ghost use Rattle.std.specs.Prelude.{◌≡◌, ◌↔◌, ◌⊎◌, ◌<◌, ◌≤◌, ◌+◌, ℕ, IfErr, IfOk, OnOk, Some, length, slice_get};
ghost use Rattle.std.specs.FinMap.{contains_key, get, keys};
ghost use Rattle.s38_base.specs.Faults.{HasCauseOf};
ghost use Rattle.s38_codec.specs.Codec.{AreBytes};
ghost use Rattle.s38_image.specs.Fitting.{AreFine};
ghost use Rattle.s38_restart.specs.Parts.{HasWholePage, all_parts};
ghost use Rattle.s38_restart.specs.declared.fault.RestartFault.TheVariants as RestartFault;
ghost use Rattle.s38_vault.specs.Content.{AreRising, Content, HaveObjects};

use crate::fault::RestartFault;
use s38_base::{Change, Key, Page};
use s38_vault::Vault;
use std::alloc::Global;

/// A page that is put. It has 512 bytes.
fn page_put(key: Key, page: Page) -> Change
    ensures put { result ≡ record { key = key; page = Some page } }
    ensures len { length page.bytes ≡ 512 }
    ensures bytes { AreBytes page.bytes }
{
    Change {
        key,
        page: Some(page),
    }
}

/// The page of a part, or none.
fn part_of(key: Key, page: Option<Page>) -> Change
    ensures part { result ≡ record { key = key; page = page } }
    ensures fine { HasWholePage result }
{
    match page {
        Some(page) => page_put(key, page),
        None => Change { key, page: None },
    }
}

/// The part of a key.
fn read_part<V: Vault>(vault: &mut V, key: Key) -> Result<Change, RestartFault>
    ensures key { IfOk result (λ part. part.key ≡ key) }
    ensures part { IfOk result (λ part. (m : Content) → V.holds vault.old m → part ≡ record { key = key; page = get m key }) }
    ensures fine { IfOk result (λ part. HasWholePage part) }
    ensures failed { IfErr result (λ fault. fault ≡ RestartFault.Failed) }
    ensures holds { (m : Content) → V.holds vault.old m ↔ V.holds vault.new m }
    ensures past { (t : ℕ) (m : Content) → t ≤ (V.view vault.old).moment → V.leaves vault.old t m ↔ V.leaves vault.new t m }
    ensures stays { V.view vault.new ≡ record (V.view vault.old) { faults = (V.view vault.new).faults } }
    ensures cause { HasCauseOf (V.view vault.old).faults (V.view vault.new).faults result RestartFault.Failed }
    ensures count { OnOk result ((V.view vault.new).faults ≡ (V.view vault.old).faults) }
{
    let page = vault.get(key)?;
    Ok(part_of(key, page))
}

/// All parts of a store, in the order of their keys, none of object 0, each page of 512 bytes. The vault stays as it was, but
/// for its count of faults.
pub fn read_parts<V: Vault>(alloc: Global, vault: &mut V) -> Result<Vec<Change>, RestartFault>
    ensures parts { IfOk result (λ parts. (m : Content) → V.holds vault.old m → parts.items ≡ all_parts m) }
    ensures order { IfOk result (λ parts. AreRising parts.items) }
    ensures objects { IfOk result (λ parts. HaveObjects parts.items) }
    ensures fine { IfOk result (λ parts. AreFine parts.items) }
    ensures fault { IfErr result (λ fault. (fault ≡ RestartFault.Failed) ⊎ (fault ≡ RestartFault.NoMemory)) }
    ensures holds { (m : Content) → V.holds vault.old m ↔ V.holds vault.new m }
    ensures past { (t : ℕ) (m : Content) → t ≤ (V.view vault.old).moment → V.leaves vault.old t m ↔ V.leaves vault.new t m }
    ensures stays { V.view vault.new ≡ record (V.view vault.old) { faults = (V.view vault.new).faults } }
    ensures cause { HasCauseOf (V.view vault.old).faults (V.view vault.new).faults result RestartFault.Failed }
    ensures count { OnOk result ((V.view vault.new).faults ≡ (V.view vault.old).faults) }
{
    // Its contract says that the keys are those of the content.
    let _free = vault.free();
    let mut parts = Vec::new(alloc);
    let mut before = None;
    while let Some(key) = vault.next_key(before) {
        let part = read_part(vault, key)?;
        parts.push(part)?;
        before = Some(key);
    }
    Ok(parts)
}
