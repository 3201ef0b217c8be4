//! Reading the log of a store whose gate is up.
ghost use Rattle.std.specs.Prelude.{◌≡◌, ◌≤◌, ◌<◌, ◌+◌, ◌/◌, ◌^◌, ◌==◌, ◌&&◌, [], not, IfErr, IfOk, OnOk, false, length, replicate};
ghost use Rattle.std.specs.Vec.{vec_capacity};
ghost use Rattle.s38_base.specs.Faults.{HasCause, HasCauseOf};
ghost use Rattle.s38_redo_log.specs.Store.{AreHomes, IsLayout, IsLog, is_home, log_count, log_of, targets};
ghost use Rattle.s38_disk.specs.Blocks.{DiskState};
ghost use Rattle.s38_disk.specs.Disk.{IsAt};
ghost use Rattle.s38_pages.specs.Index.{marked};
ghost use Rattle.s38_pages.specs.Mounts.{IsLogFault, IsNotOfSize, log_entry_at};

use crate::fault::StoreFault;
use s38_base::Failed;
use s38_disk::Disk;
use s38_redo_log::{Layout, Slot, word_of, zero_block};
use std::alloc::Global;

/// How many entries the log has, as it says.
fn read_count<D: Disk>(disk: &mut D) -> Result<u32, Failed>
    requires { 2 < (D.view disk.old).size }
    ensures gives { IfOk result (λ count. (s : DiskState) → IsAt (D.view disk.old).past s → log_count s.now ≡ count) }
    ensures size { (D.view disk.new).size ≡ (D.view disk.old).size }
    ensures past { (D.view disk.new).past ≡ (D.view disk.old).past }
    ensures cause { HasCause (D.view disk.old).faults (D.view disk.new).faults result }
    ensures count { OnOk result ((D.view disk.new).faults ≡ (D.view disk.old).faults) }
{
    let mut block = zero_block();
    disk.read(2, &mut block)?;
    Ok(word_of(&block, 0))
}

/// An entry of a log of so many.
fn read_entry<D: Disk>(disk: &mut D, count: u32, k: u32) -> Result<Slot, Failed>
    requires few { count < 2 ^ 31 }
    requires place { k < count }
    requires size { 3 + count / 132 + count ≤ (D.view disk.old).size }
    ensures gives { IfOk result (λ slot. (s : DiskState) → IsAt (D.view disk.old).past s → log_count s.now ≡ count → slot ≡ log_entry_at s.now k) }
    ensures size { (D.view disk.new).size ≡ (D.view disk.old).size }
    ensures past { (D.view disk.new).past ≡ (D.view disk.old).past }
    ensures cause { HasCause (D.view disk.old).faults (D.view disk.new).faults result }
    ensures count { OnOk result ((D.view disk.new).faults ≡ (D.view disk.old).faults) }
{
    let mut block = zero_block();
    disk.read(2 + (k + 1) / 132, &mut block)?;
    let home = word_of(&block, ((k + 1) % 132) as usize);
    disk.read(3 + count / 132 + k, &mut block)?;
    Ok(Slot { home, block })
}

/// Whether a block is a home that was not seen.
fn is_unseen_home(layout: &Layout, seen: &[bool], home: u32) -> bool
    requires { length seen.now ≡ layout.now.size }
    ensures { result ≡ (is_home layout.now home && not (marked seen.now home)) }
{
    home >= layout.first && home < layout.size && home != layout.hole && !seen[home as usize]
}

/// Reads so many entries of the log, each of which has a home of its own.
fn read_slots<D: Disk>(
    disk: &mut D,
    layout: &Layout,
    count: u32,
    slots: &mut Vec<Slot>,
    seen: &mut Vec<bool>,
) -> Result<(), StoreFault>
    requires some { 1 ≤ count }
    requires most { count ≤ layout.now.most }
    requires few { count < 2 ^ 31 }
    requires size { 3 + count / 132 + count ≤ (D.view disk.old).size }
    requires room { count ≤ vec_capacity slots.old }
    requires empty { slots.old.items ≡ [] }
    requires seen { seen.old.items ≡ replicate layout.now.size false }
    ensures homes { OnOk result (AreHomes layout.now slots.new.items) }
    ensures len { OnOk result (length slots.new.items ≡ count) }
    ensures gives { OnOk result ((s : DiskState) → IsAt (D.view disk.old).past s → log_count s.now ≡ count → log_of s.now ≡ slots.new.items) }
    ensures damaged { IfErr result (λ fault. (s : DiskState) → IsAt (D.view disk.old).past s → log_count s.now ≡ count → IsLogFault layout.now s.now fault) }
    ensures other { IfErr result IsNotOfSize }
    ensures size { (D.view disk.new).size ≡ (D.view disk.old).size }
    ensures past { (D.view disk.new).past ≡ (D.view disk.old).past }
    ensures cause { HasCauseOf (D.view disk.old).faults (D.view disk.new).faults result StoreFault.Failed }
    ensures count { OnOk result ((D.view disk.new).faults ≡ (D.view disk.old).faults) }
{
    for k in 0..count {
        let slot = read_entry(disk, count, k)?;
        if !is_unseen_home(layout, seen, slot.home) {
            return Err(StoreFault::LogDamaged {
                block: 2 + (k + 1) / 132,
            });
        }
        seen[slot.home as usize] = true;
        slots.push_reserved(slot);
    }
    Ok(())
}

/// Reads the log of a store. It is damaged if its count is out of range, or if a home number is none or occurs twice.
pub fn read_log<D: Disk>(
    alloc: Global,
    disk: &mut D,
    layout: &Layout,
) -> Result<Vec<Slot>, StoreFault>
    requires layout { IsLayout layout.now }
    requires few { layout.now.most < 2 ^ 31 }
    requires size { layout.now.size ≤ (D.view disk.old).size }
    ensures log { IfOk result (λ slots. IsLog layout.now slots.items) }
    ensures gives { IfOk result (λ slots. (s : DiskState) → IsAt (D.view disk.old).past s → (log_count s.now ≡ length slots.items) × (log_of s.now ≡ slots.items)) }
    ensures damaged { IfErr result (λ fault. (s : DiskState) → IsAt (D.view disk.old).past s → IsLogFault layout.now s.now fault) }
    ensures other { IfErr result IsNotOfSize }
    ensures size { (D.view disk.new).size ≡ (D.view disk.old).size }
    ensures past { (D.view disk.new).past ≡ (D.view disk.old).past }
    ensures cause { HasCauseOf (D.view disk.old).faults (D.view disk.new).faults result StoreFault.Failed }
    ensures count { OnOk result ((D.view disk.new).faults ≡ (D.view disk.old).faults) }
{
    let count = read_count(disk)?;
    if count == 0 || count > layout.most {
        return Err(StoreFault::LogDamaged { block: 2 });
    }
    let mut slots = Vec::new(alloc);
    slots.reserve(count as usize)?;
    let mut seen = Vec::new(alloc);
    seen.resize(layout.size as usize, false)?;
    read_slots(disk, layout, count, &mut slots, &mut seen)?;
    Ok(slots)
}
