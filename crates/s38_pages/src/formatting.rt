//! Making a store: zeros, the first homes, and then the label.
ghost use Rattle.std.specs.Prelude.{◌≡◌, ◌≤◌, ◌<◌, ◌+◌, ◌^◌, ℕ, false, true, IfErr, IfOk, OnOk, length};
ghost use Rattle.std.specs.Vec.{vec_capacity};
ghost use Rattle.s38_base.specs.Faults.{HasCause, HasCauseOf};
ghost use Rattle.s38_redo_log.specs.Coding.{is_store_label};
ghost use Rattle.s38_redo_log.specs.Phases.{block_between};
ghost use Rattle.s38_redo_log.specs.Store.{AreHomes, IsLayout};
ghost use Rattle.s38_disk.specs.Blocks.{DiskState};
ghost use Rattle.s38_disk.specs.Disk.{IsAt};
ghost use Rattle.s38_disk.specs.Moves.{IsSynced, Moves, MovesBy, Near, SameBut};
ghost use Rattle.s38_vault.specs.Content.{AreRising, Content, HaveObjects};
ghost use Rattle.s38_vault.specs.Directory.{keys_of};
ghost use Rattle.s38_pages.specs.Formats.{Fills, IsBlank, IsMade, IsMaking, IsUnmade, first_content, label_place, most_first};
ghost use Rattle.s38_pages.specs.Mounts.{fewest, layout_of};
ghost use Rattle.s38_pages.specs.Vaults.{HoldsNow, IsVault};

use crate::fault::StoreFault;
use crate::mounting::{Opened, has_label, layout_on, without_pages};
use crate::plan::{give_back, plan};
use s38_base::{Change, Failed};
use s38_disk::Disk;
use s38_redo_log::{Layout, Slot, label_block, write_homes, zero_block};
use std::alloc::Global;

/// Where things are to lie on a disk that has no store.
fn choose_layout<D: Disk>(disk: &mut D) -> Result<Layout, StoreFault>
    ensures layout { IfOk result (λ layout. layout ≡ layout_of (D.view disk.old).size) }
    ensures large { OnOk result (fewest ≤ (D.view disk.old).size) }
    ensures fresh { OnOk result ((s : DiskState) → IsAt (D.view disk.old).past s → is_store_label (s.now 0) ≡ false) }
    ensures refused { IfErr result (λ fault. IsUnmade (D.view disk.old) fault) }
    ensures size { (D.view disk.new).size ≡ (D.view disk.old).size }
    ensures past { (D.view disk.new).past ≡ (D.view disk.old).past }
    ensures cause { HasCauseOf (D.view disk.old).faults (D.view disk.new).faults result StoreFault.Failed }
    ensures count { OnOk result ((D.view disk.new).faults ≡ (D.view disk.old).faults) }
{
    let layout = layout_on(disk)?;
    if has_label(disk)? {
        return Err(StoreFault::AlreadyInstalled);
    }
    Ok(layout)
}

/// Writes zeros to all blocks but the first, and syncs.
fn write_zeros<D: Disk>(disk: &mut D, size: u32) -> Result<(), Failed>
    requires some { 1 ≤ size }
    requires size { size ≤ (D.view disk.old).size }
    ensures moves { Moves (D.view disk.old) (D.view disk.new) size (Near (block_between 1 size)) }
    ensures done { OnOk result (MovesBy (D.view disk.old) (D.view disk.new) (λ s t. IsSynced t × ((i : ℕ) → 1 ≤ i → i < size → IsBlank (t.now i)))) }
    ensures cause { HasCause (D.view disk.old).faults (D.view disk.new).faults result }
    ensures count { OnOk result ((D.view disk.new).faults ≡ (D.view disk.old).faults) }
{
    let zeros = zero_block();
    for at in 1..size {
        disk.write(at, &zeros)?;
    }
    disk.sync()?;
    Ok(())
}

/// Writes the label, and syncs.
fn write_label<D: Disk>(disk: &mut D) -> Result<(), Failed>
    requires { 0 < (D.view disk.old).size }
    ensures moves { Moves (D.view disk.old) (D.view disk.new) 2 (Near label_place) }
    ensures done { OnOk result (MovesBy (D.view disk.old) (D.view disk.new) (λ s t. IsSynced t × (is_store_label (t.now 0) ≡ true) × SameBut label_place s.now t.now)) }
    ensures cause { HasCause (D.view disk.old).faults (D.view disk.new).faults result }
    ensures count { OnOk result ((D.view disk.new).faults ≡ (D.view disk.old).faults) }
{
    disk.write(0, &label_block())?;
    disk.sync()?;
    Ok(())
}

/// Writes a store of the slots on a disk without a label.
fn write_store<D: Disk>(disk: &mut D, layout: &Layout, slots: &[Slot]) -> Result<(), Failed>
    requires layout { IsLayout layout.now }
    requires homes { AreHomes layout.now slots.now }
    requires size { layout.now.size ≤ (D.view disk.old).size }
    requires fresh { (s : DiskState) → IsAt (D.view disk.old).past s → is_store_label (s.now 0) ≡ false }
    ensures moves { (m : Content) → Fills layout.now slots.now m → Moves (D.view disk.old) (D.view disk.new) (layout.now.size + length slots.now + 3) (IsMaking layout.now m) }
    ensures done { OnOk result (MovesBy (D.view disk.old) (D.view disk.new) (λ s t. IsMade layout.now slots.now t)) }
    ensures size { (D.view disk.new).size ≡ (D.view disk.old).size }
    ensures cause { HasCause (D.view disk.old).faults (D.view disk.new).faults result }
    ensures count { OnOk result ((D.view disk.new).faults ≡ (D.view disk.old).faults) }
{
    write_zeros(disk, layout.size)?;
    write_homes(disk, slots)?;
    write_label(disk)?;
    Ok(())
}

/// Makes a store of that content on a disk without a label. Memory is taken before anything is written.
pub fn create<D: Disk>(alloc: Global, disk: &mut D, first: &[Change]) -> Result<Opened, StoreFault>
    requires few { length first.now ≤ most_first }
    requires rising { AreRising first.now }
    requires objects { HaveObjects first.now }
    ensures layout { IfOk result (λ made. made.layout ≡ layout_of (D.view disk.old).size) }
    ensures vault { IfOk result (λ made. IsVault (layout_of (D.view disk.old).size) (D.view disk.new) made.homes.values made.marks made.slots.items (vec_capacity made.slots) true) }
    ensures content { OnOk result ((s : DiskState) → IsAt (D.view disk.old).past s → HoldsNow (layout_of (D.view disk.old).size) (D.view disk.new) true (first_content first.now)) }
    ensures keys { IfOk result (λ made. keys_of made.homes.values ≡ keys_of (first_content first.now)) }
    ensures large { OnOk result (fewest ≤ (D.view disk.old).size) }
    ensures fresh { OnOk result ((s : DiskState) → IsAt (D.view disk.old).past s → is_store_label (s.now 0) ≡ false) }
    ensures moves { Moves (D.view disk.old) (D.view disk.new) ((layout_of (D.view disk.old).size).size + length first.now + 3) (IsMaking (layout_of (D.view disk.old).size) (first_content first.now)) }
    ensures refused { IfErr result (λ fault. IsUnmade (D.view disk.old) fault) }
    ensures kept { IfErr result (λ fault. (fault ≡ StoreFault.Failed → ⊥) → (D.view disk.new).past ≡ (D.view disk.old).past) }
    ensures cause { HasCauseOf (D.view disk.old).faults (D.view disk.new).faults result StoreFault.Failed }
    ensures count { OnOk result ((D.view disk.new).faults ≡ (D.view disk.old).faults) }
{
    let layout = choose_layout(disk)?;
    let mut made = without_pages(alloc, &layout)?;
    plan(&mut made.homes, &mut made.marks, &mut made.slots, first);
    write_store(disk, &layout, &made.slots)?;
    give_back(&mut made.marks, &made.slots);
    made.slots.clear();
    Ok(made)
}
