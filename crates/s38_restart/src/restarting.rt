//! A store is restarted.
ghost use Rattle.std.specs.Prelude.{◌≡◌, ◌≢◌, ◌⊎◌, ◌≤◌, ◌<◌, ◌↔◌, ℕ, List, [], None, IfErr, IfOk, IsErrOf, OnOk, length, take};
ghost use Rattle.s38_base.specs.Faults.{HasCauseOf};
ghost use Rattle.s38_base.specs.declared.page.Change.{Change as Part};
ghost use Rattle.s38_space_map.specs.Extents.{AreRising as AreExtents};
ghost use Rattle.s38_restart.specs.catalog.Groups.{removals as strays};
ghost use Rattle.s38_restart.specs.catalog.Stores.{first_fault};
ghost use Rattle.s38_restart.specs.Faults.{NamesFault, NamesFirst};
ghost use Rattle.s38_restart.specs.Parts.{AreParts, all_parts};
ghost use Rattle.s38_restart.specs.Removing.{AreRemovals};
ghost use Rattle.s38_restart.specs.Restarted.{extents_kept, restarted};
ghost use Rattle.s38_restart.specs.declared.fault.RestartFault.TheVariants as RestartFault;
ghost use Rattle.s38_vault.specs.Content.{AreRising, Content, HaveObjects, changed};

use crate::extents::extents_of;
use crate::fault::RestartFault;
use crate::following::followed;
use crate::reading::read_parts;
use crate::removing::remove_all;
use crate::store_of;
use s38_base::Change;
use s38_objects::Objects;
use s38_space_map::Extent;
use s38_vault::Vault;
use std::alloc::Global;

/// What a store was restarted to.
#[derive(Drop)]
pub struct Restarted {
    /// The objects, each data space followed by its journal space.
    pub objects: Objects,
    /// How many pages the store has of each of them, as it is kept, in rising order of number.
    pub extents: Vec<Extent>,
}

/// What all parts of a store make: the object map with the extents, and the changes that take away each orphan
/// page.
#[derive(Drop)]
struct Restored {
    store: Restarted,
    removals: Vec<Change>,
}

/// What all parts of a store make. `BadImage` exactly where a part is at fault; it names the first one. The parts
/// are let go as soon as the objects are read.
fn restore(alloc: Global, limit: u32, parts: Vec<Change>) -> Result<Restored, RestartFault>
    requires limit { limit ≤ 16777216 }
    requires parts { AreParts parts.items }
    ensures sound { OnOk result (first_fault limit parts.items ≡ None) }
    ensures objects { IfOk result (λ restored. restored.store.objects ≡ restarted limit parts.items) }
    ensures extents { IfOk result (λ restored. restored.store.extents.items ≡ extents_kept limit parts.items) }
    ensures rising { IfOk result (λ restored. AreExtents restored.store.extents.items) }
    ensures removals { IfOk result (λ restored. restored.removals.items ≡ strays parts.items) }
    ensures fault { IfErr result (λ fault. NamesFirst (first_fault limit parts.items) fault) }
    ensures inside { IfErr result (λ fault. fault ≢ RestartFault.Failed) }
{
    let store = store_of(alloc, limit, parts.as_slice())?;
    drop(parts);
    let extents = extents_of(alloc, &store.stored)?;
    let ceiling = store.ceiling;
    let objects = followed(alloc, store.stored)?;
    let objects = Objects::restored(alloc, objects, ceiling + 1, ceiling)?;
    Ok(Restored {
        store: Restarted { objects, extents },
        removals: store.removals,
    })
}

/// Takes the memory for changes that take parts away, and makes them. Where memory is refused nothing else changes.
fn remove<V: Vault>(vault: &mut V, changes: &[Change]) -> Result<(), RestartFault>
    requires removals { AreRemovals changes.now }
    requires rising { AreRising changes.now }
    requires objects { HaveObjects changes.now }
    ensures holds { OnOk result ((m : Content) → V.holds vault.old m → V.holds vault.new (changed m changes.now)) }
    ensures kept { IfErr result (λ fault. fault ≢ RestartFault.Failed → (m : Content) → V.holds vault.old m ↔ V.holds vault.new m) }
    ensures still { IfErr result (λ fault. fault ≢ RestartFault.Failed → V.view vault.new ≡ record (V.view vault.old) { spare = (V.view vault.new).spare }) }
    ensures fault { IfErr result (λ fault. (fault ≡ RestartFault.Failed) ⊎ (fault ≡ RestartFault.NoMemory)) }
    ensures past { (t : ℕ) (m : Content) → t ≤ (V.view vault.old).moment → V.leaves vault.old t m ↔ V.leaves vault.new t m }
    ensures during { (m : Content) → V.holds vault.old m → (t : ℕ) (n : Content) → (V.view vault.old).moment < t → t ≤ (V.view vault.new).moment → V.leaves vault.new t n
        → (count : ℕ) × (n ≡ changed m (take count changes.now)) }
    ensures later { (V.view vault.old).moment ≤ (V.view vault.new).moment }
    ensures shape { (V.view vault.new).shape ≡ (V.view vault.old).shape }
    ensures cause { HasCauseOf (V.view vault.old).faults (V.view vault.new).faults result RestartFault.Failed }
    ensures count { OnOk result ((V.view vault.new).faults ≡ (V.view vault.old).faults) }
{
    match u32::try_from(changes.len()) {
        Ok(count) => vault.reserve(count)?,
        Err(_) => return Err(RestartFault::NoMemory),
    }
    remove_all(vault, changes)
}

/// Makes the object map of all that a store keeps: each object as its image has it, and each data space followed by its
/// journal space. With it the extent of each object as it is kept is given. The orphan pages are taken away; nothing is put
/// where there is none. `BadImage` exactly where a part is at fault; it names the first one. A crash on the way leaves some of
/// the orphan pages.
pub fn restart<V: Vault>(alloc: Global, vault: &mut V) -> Result<Restarted, RestartFault>
    // The objects and their extents are those of the parts that were read, and these have no fault. They are the ones that the
    // vault tells.
    ensures read { IfOk result (λ store. (parts : List Part) × (AreParts parts × ((first_fault (V.view vault.old).shape.body_limit parts ≡ None) × ((store.objects ≡ restarted (V.view vault.old).shape.body_limit parts) × (store.extents.items ≡ extents_kept (V.view vault.old).shape.body_limit parts))))) }
    ensures told { IfOk result (λ store. (m : Content) → V.holds vault.old m → store.objects ≡ restarted (V.view vault.old).shape.body_limit (all_parts m)) }
    ensures extents { IfOk result (λ store. (m : Content) → V.holds vault.old m → store.extents.items ≡ extents_kept (V.view vault.old).shape.body_limit (all_parts m)) }
    ensures rising { IfOk result (λ store. AreExtents store.extents.items) }
    ensures parts { OnOk result ((m : Content) → V.holds vault.old m → AreParts (all_parts m)) }
    ensures sound { OnOk result ((m : Content) → V.holds vault.old m → first_fault (V.view vault.old).shape.body_limit (all_parts m) ≡ None) }

    // A fault is the first one.
    ensures bad { IfErr result (λ fault. (m : Content) → V.holds vault.old m → NamesFirst (first_fault (V.view vault.old).shape.body_limit (all_parts m)) fault) }
    ensures untold { IfErr result (λ fault. NamesFault (V.view vault.old).shape.body_limit fault) }

    // The orphan pages are taken away, one by one; none is, unless the objects are answered or the vault failed.
    ensures holds { OnOk result ((m : Content) → V.holds vault.old m → V.holds vault.new (changed m (strays (all_parts m)))) }
    ensures kept { IfErr result (λ fault. fault ≢ RestartFault.Failed → (m : Content) → V.holds vault.old m ↔ V.holds vault.new m) }
    ensures still { IfErr result (λ fault. fault ≢ RestartFault.Failed → V.view vault.new ≡ record (V.view vault.old) { faults = (V.view vault.new).faults; spare = (V.view vault.new).spare }) }
    ensures past { (t : ℕ) (m : Content) → t ≤ (V.view vault.old).moment → V.leaves vault.old t m ↔ V.leaves vault.new t m }
    ensures during { (m : Content) → V.holds vault.old m → (t : ℕ) (n : Content) → (V.view vault.old).moment < t → t ≤ (V.view vault.new).moment → V.leaves vault.new t n
        → (count : ℕ) × (n ≡ changed m (take count (strays (all_parts m)))) }
    ensures later { (V.view vault.old).moment ≤ (V.view vault.new).moment }
    ensures shape { (V.view vault.new).shape ≡ (V.view vault.old).shape }
    ensures cause { HasCauseOf (V.view vault.old).faults (V.view vault.new).faults result RestartFault.Failed }
    ensures count { OnOk result ((V.view vault.new).faults ≡ (V.view vault.old).faults) }
{
    let limit = vault.body_limit();
    let parts = read_parts(alloc, vault)?;
    let restored = restore(alloc, limit, parts)?;
    remove(vault, &restored.removals)?;
    Ok(restored.store)
}
