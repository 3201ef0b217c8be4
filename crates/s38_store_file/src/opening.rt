ghost use Rattle.std.specs.Prelude.{◌≡◌, ◌+◌, ◌≤◌, All, IfErr, IfOk, true};
ghost use Rattle.std.specs.FinMap.{len};
ghost use Rattle.s38_base.specs.Faults.{Rose};
ghost use Rattle.s38_disk.specs.Blocks.{DiskState};
ghost use Rattle.s38_disk.specs.Disk.{IsAt};
ghost use Rattle.s38_space_map.specs.Extents.{AreRising};
ghost use Rattle.s38_restart.specs.catalog.Groups.{removals};
ghost use Rattle.s38_laws_images.specs.openings.Opening.{IsOpening};
ghost use Rattle.s38_pages.specs.Index.{home_count};
ghost use Rattle.s38_pages.specs.Mounts.{fewest, layout_of};
ghost use Rattle.s38_pages.specs.Vaults.{page_holds, page_view};
ghost use Rattle.s38_laws_images.specs.readable.Forms.{HoldsForm};
ghost use Rattle.s38_restart.specs.Parts.{all_parts};
ghost use Rattle.s38_space_rules.specs.Following.{Fits};
ghost use Rattle.s38_rules.specs.state.Kept.{CanBeKept};
ghost use Rattle.s38_store_file.specs.Crashes.{DuringCall, GoesOn, IsPartlyCleaned, KeepsRestarting};
ghost use Rattle.s38_store_file.specs.Opened.{HoldsCleaned, IsFaultless, IsOpened, IsOpenedOn};
ghost use Rattle.s38_store_file.specs.Refusals.{IsFaultOf, IsRefusal};
ghost use Rattle.s38_store_file.specs.Stores.{AreOf, Restarts};
ghost use Rattle.s38_vault.specs.Content.{Content, changed};

use crate::charges::total_charge;
use crate::fault::{StoreRefusal, of_restart, of_store};
use s38_disk::Disk;
use s38_image::CEILING_PARTS;
use s38_objects::Objects;
use s38_pages::{PageVault, WatchedVault};
use s38_redo_log::{FIRST_HOME, MOST_BLOCKS};
use s38_restart::{Restarted, restart};
use s38_space_map::Room;
use s38_vault::Vault;
use std::alloc::Global;

/// A store that was opened: its pages, the objects that it was restarted to, and how many parts it has for objects, with
/// the extent of each of them as it is kept.
pub struct OpenStore<D: Disk> {
    pub vault: PageVault<D>,
    pub objects: Objects,
    pub room: Room,
}

/// How many parts a store on a disk of so many blocks has for objects: all but that of the ceiling.
fn parts_on(blocks: u32) -> u32
    requires { fewest ≤ blocks }
    ensures { result + 1 ≡ home_count (layout_of blocks) }
{
    blocks.min(MOST_BLOCKS) - FIRST_HOME - CEILING_PARTS
}

/// What is kept of users can be kept of these objects.
fn can_be_kept(objects: &Objects) -> bool
    requires { IsOpening objects.now }
    ensures { result ≡ true → CanBeKept objects.now }
{
    total_charge(objects).is_some()
}

/// Restarts a store that was mounted, and that has so many parts for objects.
fn restarted<D: Disk>(
    alloc: Global,
    vault: PageVault<D>,
    parts: u32,
) -> Result<OpenStore<D>, (D, StoreRefusal)>
    requires faultless { (page_view vault).faults ≡ vault.start }
    requires layout { vault.layout ≡ layout_of vault.disk.size }
    requires parts { parts + 1 ≡ home_count vault.layout }
    ensures opened { IfOk result (λ store. (m : Content) → page_holds vault m → IsOpened m store.vault store.objects store.room.room) }
    ensures fits { IfOk result (λ store. Fits store.room.room.extents store.objects) }
    ensures rising { IfOk result (λ store. AreRising store.room.room.extents) }
    ensures parts { IfOk result (λ store. store.room.room.parts + 1 ≡ (page_view store.vault).shape.parts) }
    ensures free { IfOk result (λ store. (page_view store.vault).free + len (page_view store.vault).keys ≡ store.room.room.parts + 1) }
    ensures opening { IfOk result (λ store. IsOpening store.objects) }
    ensures forms { IfOk result (λ store. All HoldsForm store.objects.objects) }
    ensures kept { IfOk result (λ store. CanBeKept store.objects) }
    ensures start { IfOk result (λ store. store.vault.start ≡ vault.start) }
    ensures faults { IfOk result (λ store. (page_view store.vault).faults ≡ (page_view vault).faults) }
    ensures refused { IfErr result (λ refusal. (m : Content) → page_holds vault m → IsFaultOf m refusal.1) }
    ensures cause { IfErr result (λ refusal. refusal.1 ≡ StoreRefusal.Failed → Rose vault.start (D.view refusal.0).faults) }
    ensures during { IfOk result (λ store. (m : Content) → page_holds vault m → DuringCall vault.disk store.vault.disk (IsPartlyCleaned store.vault.disk.size m)) }
    ensures crash { IfErr result (λ refusal. (m : Content) → page_holds vault m → DuringCall vault.disk (D.view refusal.0) (IsPartlyCleaned (D.view refusal.0).size m)) }
    ensures goes { IfOk result (λ store. GoesOn vault.disk store.vault.disk) }
    ensures placed { IfOk result (λ store. store.vault.layout ≡ vault.layout) }
{
    let mut watched = WatchedVault::of(vault);
    match restart(alloc, &mut watched) {
        Err(fault) => Err((watched.end().release(), of_restart(fault))),
        Ok(restarted) => {
            let vault = watched.end();
            // Its contract says that the free parts and those that have a page are all parts.
            let _free = vault.free();
            if can_be_kept(&restarted.objects) {
                let Restarted { objects, extents } = restarted;
                let room = Room::new(parts, extents);
                Ok(OpenStore {
                    vault,
                    objects,
                    room,
                })
            } else {
                Err((vault.release(), StoreRefusal::NoMemory))
            }
        }
    }
}

/// Opens the store on a disk: it is mounted and restarted, and orphan pages are taken away. A run may begin
/// with its objects and its room, and each of its programs is the one that is created of its template. The disk comes back
/// with the reason where the store is refused.
pub fn open<D: Disk>(alloc: Global, disk: D) -> Result<OpenStore<D>, (D, StoreRefusal)>
    ensures restarts { IfOk result (λ store. (s : DiskState) → IsAt (D.view disk).past s → Restarts (D.view disk).size s.now store.objects) }
    ensures opening { IfOk result (λ store. IsOpening store.objects) }
    ensures forms { IfOk result (λ store. All HoldsForm store.objects.objects) }
    ensures kept { IfOk result (λ store. CanBeKept store.objects) }
    ensures opened { IfOk result (λ store. IsOpenedOn (D.view disk) store.vault store.objects store.room.room) }
    ensures holds { IfOk result (λ store. HoldsCleaned (D.view disk) store.vault) }
    ensures faultless { IfOk result (λ store. IsFaultless (D.view disk) store.vault) }
    ensures refused { IfErr result (λ refusal. (s : DiskState) → IsAt (D.view disk).past s → IsRefusal (D.view disk).size s.now refusal.1) }
    ensures cause { IfErr result (λ refusal. refusal.1 ≡ StoreRefusal.Failed → Rose (D.view disk).faults (D.view refusal.0).faults) }

    // Whatever the disk tells, the room fits the objects, and the ceiling's part is none of its parts.
    ensures fits { IfOk result (λ store. Fits store.room.room.extents store.objects) }
    ensures rising { IfOk result (λ store. AreRising store.room.room.extents) }
    ensures parts { IfOk result (λ store. store.room.room.parts + 1 ≡ (page_view store.vault).shape.parts) }
    ensures free { IfOk result (λ store. (page_view store.vault).free + len (page_view store.vault).keys ≡ store.room.room.parts + 1) }

    // Whatever it answers, a crash leaves a store that restarts to the same objects.
    ensures during { IfOk result (λ store. KeepsRestarting (D.view disk) store.vault.disk) }
    ensures crash { IfErr result (λ refusal. KeepsRestarting (D.view disk) (D.view refusal.0)) }
    ensures goes { IfOk result (λ store. GoesOn (D.view disk) store.vault.disk) }
    ensures placed { IfOk result (λ store. store.vault.layout ≡ layout_of (D.view disk).size) }
{
    let blocks = disk.blocks();
    match PageVault::mount(alloc, disk) {
        Ok(vault) => restarted(alloc, vault, parts_on(blocks)),
        Err((disk, fault)) => Err((disk, of_store(fault))),
    }
}
