ghost use Rattle.std.specs.Prelude.{◌≡◌, ◌≤◌, IfErr, IfOk, OnOk, false, length};
ghost use Rattle.s38_base.specs.Faults.{Rose};
ghost use Rattle.s38_redo_log.specs.Coding.{is_store_label};
ghost use Rattle.s38_checkpoint.specs.Closing.{content_of};
ghost use Rattle.s38_disk.specs.Blocks.{DiskState};
ghost use Rattle.s38_disk.specs.Disk.{IsAt};
ghost use Rattle.s38_pages.specs.Formats.{first_content, most_first};
ghost use Rattle.s38_rules.specs.state.Opening.{held_installed};
ghost use Rattle.s38_store_file.specs.Crashes.{DuringCall, FromSynced, IsNoneOrInstalled};
ghost use Rattle.s38_store_file.specs.Refusals.{IsUnmadeBy};
ghost use Rattle.s38_store_file.specs.Stores.{BlocksBeforeAndAfter, Keeps, installed_store};
ghost use Rattle.s38_vault.specs.Content.{AreRising, HaveObjects};

use crate::fault::{StoreRefusal, of_store};
use s38_base::{Change, NoMemory};
use s38_checkpoint::first_changes;
use s38_commits::Units;
use s38_disk::Disk;
use s38_objects::Objects;
use s38_pages::PageVault;
use std::alloc::Global;

/// How many changes the first content of a store has at most.
const MOST_FIRST: usize = 1_790;

/// The changes that make a new store hold these objects, which are few.
fn installing_changes(alloc: Global, objects: &Objects) -> Result<Vec<Change>, NoMemory>
    requires { objects.now ≡ held_installed }
    ensures content { IfOk result (λ changes. first_content changes.items ≡ content_of installed_store) }
    ensures few { IfOk result (λ changes. length changes.items ≤ most_first) }
    ensures rising { IfOk result (λ changes. AreRising changes.items) }
    ensures objects { IfOk result (λ changes. HaveObjects changes.items) }
{
    let units = Units::new(alloc);
    let changes = first_changes(alloc, objects, &units)?;
    if changes.len() > MOST_FIRST {
        return Err(NoMemory);
    }
    Ok(changes)
}

/// Makes a store on a disk that has none, with the objects that are handed in: the machine context and the security officer.
/// The disk comes back with the reason where no store is made, as it was unless it failed. Whenever a crash comes meanwhile,
/// the disk has no label, or the store is whole.
pub fn install<D: Disk>(alloc: Global, disk: D, objects: &Objects) -> Result<D, (D, StoreRefusal)>
    requires { objects.now ≡ held_installed }
    ensures made { IfOk result (λ new. BlocksBeforeAndAfter (D.view disk) (D.view new) (λ f g. Keeps (D.view new).size g installed_store)) }
    ensures fresh { OnOk result ((s : DiskState) → IsAt (D.view disk).past s → is_store_label (s.now 0) ≡ false) }
    ensures refused { IfErr result (λ refusal. IsUnmadeBy (D.view disk) refusal.1) }
    ensures stays { IfErr result (λ refusal. (refusal.1 ≡ StoreRefusal.Failed → ⊥) → (D.view refusal.0).past ≡ (D.view disk).past) }
    ensures cause { IfErr result (λ refusal. refusal.1 ≡ StoreRefusal.Failed → Rose (D.view disk).faults (D.view refusal.0).faults) }

    // Whatever it answers, a crash leaves no label or the whole store.
    ensures during { IfOk result (λ new. FromSynced (D.view disk) (λ _. DuringCall (D.view disk) (D.view new) (IsNoneOrInstalled (D.view new).size))) }
    ensures crash { IfErr result (λ refusal. FromSynced (D.view disk) (λ _. DuringCall (D.view disk) (D.view refusal.0) (IsNoneOrInstalled (D.view refusal.0).size))) }
{
    let changes = match installing_changes(alloc, objects) {
        Ok(changes) => changes,
        Err(_) => return Err((disk, StoreRefusal::NoMemory)),
    };
    match PageVault::format(alloc, disk, changes.as_slice()) {
        Ok(vault) => Ok(vault.release()),
        Err((disk, fault)) => Err((disk, of_store(fault))),
    }
}
