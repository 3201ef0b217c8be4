ghost use Rattle.std.specs.Prelude.{◌≡◌, ◌≤◌, ℕ, All, Err, IfErr, OnOk};
ghost use Rattle.s38_base.specs.Faults.{Rose};
ghost use Rattle.s38_checkpoint.specs.Closing.{closing};
ghost use Rattle.s38_disk.specs.Blocks.{DiskState};
ghost use Rattle.s38_disk.specs.Disk.{IsAt};
ghost use Rattle.s38_page_diff.specs.FlushFaults.{IfBad};
ghost use Rattle.s38_image_writer.specs.Parts.{CanSettle};
ghost use Rattle.s38_pages.specs.Mounts.{layout_of};
ghost use Rattle.s38_pages.specs.Vaults.{page_holds, page_view};
ghost use Rattle.s38_rules.specs.store.Storable.{IsStorable};
ghost use Rattle.s38_store_file.specs.Crashes.{DuringCall, GoesOn, IsBetween};
ghost use Rattle.s38_store_file.specs.Stores.{AllFit, IsFullOf, Keeps, KeepsFirst};
ghost use Rattle.s38_vault.specs.Content.{Content};

use s38_checkpoint::close;
use s38_commits::Units;
use s38_disk::Disk;
use s38_objects::Objects;
use s38_page_diff::FlushFault;
use s38_pages::{PageVault, WatchedVault};
use s38_vault::Vault;
use std::alloc::Global;

/// The disk of a store, and whether what a run left was kept on it.
pub struct Kept<D> {
    pub disk: D,
    pub end: Result<(), FlushFault>,
}

/// Keeps what a run left in the store that it began with: each object, one after another in the order of their numbers, with
/// every change that is not committed taken back, the ceiling of numbers, and nothing else. Where it is full the objects before
/// the one that does not fit are kept; where each fits in its turn it is not full.
pub fn checkpoint<D: Disk>(
    alloc: Global,
    vault: PageVault<D>,
    objects: &Objects,
    units: &Units,
) -> Kept<D>
    requires storable { All IsStorable objects.now.objects }
    requires settles { All (λ o. CanSettle units.now o.number.0 o.body) objects.now.objects }
    requires numbers { All (λ o. 1 ≤ o.number.0) objects.now.objects }
    requires faultless { (page_view vault).faults ≡ vault.start }
    ensures kept { OnOk result.end ((m : Content) → page_holds vault m → (t : DiskState) → IsAt (D.view result.disk).past t
        → Keeps (D.view result.disk).size t.now (closing units.now objects.now)) }
    ensures fits { OnOk result.end ((m : Content) → page_holds vault m → AllFit (D.view result.disk).size m (closing units.now objects.now) objects.now) }
    ensures full { (needed free : ℕ) → result.end ≡ Err (FlushFault.Full needed free) → (m : Content) → page_holds vault m → (t : DiskState) → IsAt (D.view result.disk).past t
        → IsFullOf (D.view result.disk).size m (closing units.now objects.now) objects.now t.now needed free }
    ensures stopped { result.end ≡ Err FlushFault.NoMemory → (m : Content) → page_holds vault m → (t : DiskState) → IsAt (D.view result.disk).past t
        → KeepsFirst (D.view result.disk).size m (closing units.now objects.now) objects.now t.now }
    ensures bad { IfErr result.end (IfBad ⊥) }
    ensures cause { IfErr result.end (λ fault. fault ≡ FlushFault.Failed → Rose vault.start (D.view result.disk).faults) }

    // Whatever it answers, a crash leaves the first objects kept, or all; where one object needs several puts, some of them may
    // be made.
    ensures during { (m : Content) → page_holds vault m → DuringCall vault.disk (D.view result.disk) (IsBetween (D.view result.disk).size m (closing units.now objects.now) objects.now) }
    ensures goes { GoesOn vault.disk (D.view result.disk) }
    ensures placed { vault.layout ≡ layout_of (D.view result.disk).size }
{
    // Its contract says how many changes a put takes.
    let _most = vault.most();
    let mut watched = WatchedVault::of(vault);
    let end = close(alloc, &mut watched, objects, units);
    let vault = watched.end();
    let disk = vault.release();
    Kept { disk, end }
}
