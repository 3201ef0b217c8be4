//! What is done as a store is mounted.
ghost use Rattle.std.specs.Prelude.{◌≡◌, ◌≤◌, ◌<◌, ◌+◌, ◌^◌, [], true, IfErr, IfOk, OnErr, OnOk, length};
ghost use Rattle.std.specs.FinMap.{empty, get};
ghost use Rattle.std.specs.Vec.{vec_capacity};
ghost use Rattle.s38_base.specs.Faults.{HasCause, HasCauseOf};
ghost use Rattle.s38_redo_log.specs.Coding.{is_store_label, is_up};
ghost use Rattle.s38_redo_log.specs.Store.{IsLayout};
ghost use Rattle.s38_disk.specs.Blocks.{DiskState};
ghost use Rattle.s38_disk.specs.Disk.{IsAt};
ghost use Rattle.s38_redo_log.specs.Store.{RecoversTo};
ghost use Rattle.s38_redo_log.specs.declared.layout.Layout.{Layout};
ghost use Rattle.s38_disk.specs.Moves.{IsSynced, Moves, MovesBy};
ghost use Rattle.s38_vault.specs.Content.{Content};
ghost use Rattle.s38_pages.specs.Vaults.{HoldsNow, IsVault};
ghost use Rattle.s38_pages.specs.Mounts.{IsFinishFault, IsFinished, IsIndexFault, IsMounted, IsNotOfSize, IsReady, IsRefused, IsSized, fewest, layout_of};
ghost use Rattle.s38_pages.specs.Scan.{IsScannedTo, Scanned};

use crate::fault::StoreFault;
use crate::log_reading::read_log;
use crate::marks::Marks;
use crate::scan::scan;
use s38_base::{Failed, NoMemory};
use s38_disk::Disk;
use s38_redo_log::{
    FIRST_HOME, Layout, MOST_BLOCKS, MOST_ENTRIES, Slot, is_label, is_up, redo, zero_block,
};
use s38_vault::Keyed;
use std::alloc::Global;

/// The fewest blocks of a store.
const FEWEST: u32 = 4096;

/// Where things lie in a store on a disk of so many blocks.
fn layout_of(blocks: u32) -> Layout
    ensures { result ≡ layout_of blocks }
{
    Layout {
        first: FIRST_HOME,
        hole: 0,
        size: blocks.min(MOST_BLOCKS),
        most: MOST_ENTRIES,
    }
}

/// Where things lie in a store on a disk, if the disk is not too small for one.
pub fn layout_on<D: Disk>(disk: &D) -> Result<Layout, StoreFault>
    ensures layout { IfOk result (λ layout. layout ≡ layout_of (D.view disk.now).size) }
    ensures large { OnOk result (fewest ≤ (D.view disk.now).size) }
    ensures small { IfErr result (λ fault. fault ≡ StoreFault.TooSmall (D.view disk.now).size) }
    ensures few { OnErr result ((D.view disk.now).size < fewest) }
{
    let blocks = disk.blocks();
    if blocks < FEWEST {
        return Err(StoreFault::TooSmall { blocks });
    }
    Ok(layout_of(blocks))
}

/// Whether block 0 is a label.
pub fn has_label<D: Disk>(disk: &mut D) -> Result<bool, Failed>
    requires { 0 < (D.view disk.old).size }
    ensures gives { IfOk result (λ there. (s : DiskState) → IsAt (D.view disk.old).past s → there ≡ is_store_label (s.now 0)) }
    ensures size { (D.view disk.new).size ≡ (D.view disk.old).size }
    ensures past { (D.view disk.new).past ≡ (D.view disk.old).past }
    ensures cause { HasCause (D.view disk.old).faults (D.view disk.new).faults result }
    ensures count { OnOk result ((D.view disk.new).faults ≡ (D.view disk.old).faults) }
{
    let mut block = zero_block();
    disk.read(0, &mut block)?;
    Ok(is_label(&block))
}

/// Whether the gate is up.
fn gate_is_up<D: Disk>(disk: &mut D) -> Result<bool, Failed>
    requires { 1 < (D.view disk.old).size }
    ensures gives { IfOk result (λ up. (s : DiskState) → IsAt (D.view disk.old).past s → up ≡ is_up (s.now 1)) }
    ensures size { (D.view disk.new).size ≡ (D.view disk.old).size }
    ensures past { (D.view disk.new).past ≡ (D.view disk.old).past }
    ensures cause { HasCause (D.view disk.old).faults (D.view disk.new).faults result }
    ensures count { OnOk result ((D.view disk.new).faults ≡ (D.view disk.old).faults) }
{
    let mut block = zero_block();
    disk.read(1, &mut block)?;
    Ok(is_up(&block))
}

/// Replays the log if its gate is up.
fn finish<D: Disk>(alloc: Global, disk: &mut D, layout: &Layout) -> Result<(), StoreFault>
    requires layout { IsLayout layout.now }
    requires few { layout.now.most < 2 ^ 31 }
    requires size { layout.now.size ≤ (D.view disk.old).size }
    ensures moves { Moves (D.view disk.old) (D.view disk.new) (layout.now.most + 3) (IsMounted layout.now) }
    ensures done { OnOk result (MovesBy (D.view disk.old) (D.view disk.new) (IsFinished layout.now)) }
    ensures refused { IfErr result (λ fault. (s : DiskState) → IsAt (D.view disk.old).past s → IsFinishFault layout.now s.now fault) }
    ensures other { IfErr result IsNotOfSize }
    ensures cause { HasCauseOf (D.view disk.old).faults (D.view disk.new).faults result StoreFault.Failed }
    ensures count { OnOk result ((D.view disk.new).faults ≡ (D.view disk.old).faults) }
{
    if gate_is_up(disk)? {
        let slots = read_log(alloc, disk, layout)?;
        redo(disk, layout, &slots)?;
    }
    Ok(())
}

/// Makes all that was written stay.
fn settle<D: Disk>(disk: &mut D) -> Result<(), Failed>
    ensures moves { (lay : Layout) → Moves (D.view disk.old) (D.view disk.new) 1 (IsMounted lay) }
    ensures done { OnOk result (MovesBy (D.view disk.old) (D.view disk.new) (λ s t. IsSynced t × (t.now ≡ s.now))) }
    ensures cause { HasCause (D.view disk.old).faults (D.view disk.new).faults result }
    ensures count { OnOk result ((D.view disk.new).faults ≡ (D.view disk.old).faults) }
{
    disk.sync()
}

/// Makes all that was written stay, and replays the log if its gate is up.
fn make_ready<D: Disk>(alloc: Global, disk: &mut D, layout: &Layout) -> Result<(), StoreFault>
    requires layout { IsLayout layout.now }
    requires few { layout.now.most < 2 ^ 31 }
    requires size { layout.now.size ≤ (D.view disk.old).size }
    ensures moves { Moves (D.view disk.old) (D.view disk.new) (layout.now.most + 4) (IsMounted layout.now) }
    ensures done { OnOk result (MovesBy (D.view disk.old) (D.view disk.new) (IsReady layout.now)) }
    ensures refused { IfErr result (λ fault. (s : DiskState) → IsAt (D.view disk.old).past s → IsFinishFault layout.now s.now fault) }
    ensures other { IfErr result IsNotOfSize }
    ensures cause { HasCauseOf (D.view disk.old).faults (D.view disk.new).faults result StoreFault.Failed }
    ensures count { OnOk result ((D.view disk.new).faults ≡ (D.view disk.old).faults) }
{
    settle(disk)?;
    finish(alloc, disk, layout)
}

/// Where things lie on a disk that has a store.
fn locate<D: Disk>(disk: &mut D) -> Result<Layout, StoreFault>
    ensures layout { IfOk result (λ layout. layout ≡ layout_of (D.view disk.old).size) }
    ensures large { OnOk result (fewest ≤ (D.view disk.old).size) }
    ensures label { OnOk result ((s : DiskState) → IsAt (D.view disk.old).past s → is_store_label (s.now 0) ≡ true) }
    ensures refused { IfErr result (λ fault. (s : DiskState) → IsAt (D.view disk.old).past s → IsRefused (D.view disk.old).size s.now fault) }
    ensures sized { IfErr result (λ fault. IsSized (D.view disk.old).size fault) }
    ensures size { (D.view disk.new).size ≡ (D.view disk.old).size }
    ensures past { (D.view disk.new).past ≡ (D.view disk.old).past }
    ensures cause { HasCauseOf (D.view disk.old).faults (D.view disk.new).faults result StoreFault.Failed }
    ensures count { OnOk result ((D.view disk.new).faults ≡ (D.view disk.old).faults) }
{
    let layout = layout_on(disk)?;
    if !has_label(disk)? {
        return Err(StoreFault::NotInstalled);
    }
    Ok(layout)
}

/// The index of a store, and memory for its puts.
#[derive(Drop)]
pub struct Opened {
    pub layout: Layout,
    pub homes: Keyed<u32>,
    pub marks: Marks,
    pub slots: Vec<Slot>,
}

/// The index of a store without a page, with memory for a key at each home, and for a put.
pub fn without_pages(alloc: Global, layout: &Layout) -> Result<Opened, NoMemory>
    requires { layout.now.first ≤ layout.now.size }
    ensures layout { IfOk result (λ opened. opened.layout ≡ layout.now) }
    ensures homes { IfOk result (λ opened. opened.homes.values ≡ empty) }
    ensures spare { IfOk result (λ opened. layout.now.size ≤ opened.homes.spare + layout.now.first) }
    ensures keeps { IfOk result (λ opened. IsScannedTo layout.now opened.homes.values opened.marks layout.now.first) }
    ensures slots { IfOk result (λ opened. opened.slots.items ≡ []) }
    ensures room { IfOk result (λ opened. layout.now.most ≤ vec_capacity opened.slots) }
{
    let mut homes = Keyed::new(alloc);
    homes.reserve((layout.size - layout.first) as usize)?;
    let marks = Marks::new(alloc, layout)?;
    let mut slots = Vec::new(alloc);
    slots.reserve(layout.most as usize)?;
    Ok(Opened {
        layout: *layout,
        homes,
        marks,
        slots,
    })
}

/// Reads all homes in order.
fn index_homes<D: Disk>(alloc: Global, disk: &mut D, layout: &Layout) -> Result<Opened, StoreFault>
    requires layout { IsLayout layout.now }
    requires size { layout.now.size ≤ (D.view disk.old).size }
    ensures layout { IfOk result (λ opened. opened.layout ≡ layout.now) }
    ensures keeps { IfOk result (λ opened. IsScannedTo layout.now opened.homes.values opened.marks layout.now.size) }
    ensures scanned { IfOk result (λ opened. (s : DiskState) → IsAt (D.view disk.old).past s → Scanned layout.now s.now (get opened.homes.values) layout.now.size) }
    ensures slots { IfOk result (λ opened. opened.slots.items ≡ []) }
    ensures room { IfOk result (λ opened. layout.now.most ≤ vec_capacity opened.slots) }
    ensures refused { IfErr result (λ fault. (s : DiskState) → IsAt (D.view disk.old).past s → IsIndexFault layout.now s.now fault) }
    ensures other { IfErr result IsNotOfSize }
    ensures size { (D.view disk.new).size ≡ (D.view disk.old).size }
    ensures past { (D.view disk.new).past ≡ (D.view disk.old).past }
    ensures cause { HasCauseOf (D.view disk.old).faults (D.view disk.new).faults result StoreFault.Failed }
    ensures count { OnOk result ((D.view disk.new).faults ≡ (D.view disk.old).faults) }
{
    let mut opened = without_pages(alloc, layout)?;
    match scan(alloc, disk, layout, &mut opened.homes, &mut opened.marks)? {
        Some((first, second)) => Err(StoreFault::TwoBlocks { first, second }),
        None => Ok(opened),
    }
}

/// Opens the store on a disk.
pub fn open<D: Disk>(alloc: Global, disk: &mut D) -> Result<Opened, StoreFault>
    ensures layout { IfOk result (λ opened. opened.layout ≡ layout_of (D.view disk.old).size) }
    ensures vault { IfOk result (λ opened. IsVault (layout_of (D.view disk.old).size) (D.view disk.new) opened.homes.values opened.marks opened.slots.items (vec_capacity opened.slots) true) }
    ensures content { IfOk result (λ opened. (s : DiskState) → IsAt (D.view disk.old).past s → (m : Content) × (RecoversTo (layout_of (D.view disk.old).size) s.now m × HoldsNow (layout_of (D.view disk.old).size) (D.view disk.new) true m)) }
    ensures large { OnOk result (fewest ≤ (D.view disk.old).size) }
    ensures moves { Moves (D.view disk.old) (D.view disk.new) 2290 (IsMounted (layout_of (D.view disk.old).size)) }
    ensures refused { IfErr result (λ fault. (s : DiskState) → IsAt (D.view disk.old).past s → IsRefused (D.view disk.old).size s.now fault) }
    ensures sized { IfErr result (λ fault. IsSized (D.view disk.old).size fault) }
    ensures cause { HasCauseOf (D.view disk.old).faults (D.view disk.new).faults result StoreFault.Failed }
    ensures count { OnOk result ((D.view disk.new).faults ≡ (D.view disk.old).faults) }
{
    let layout = locate(disk)?;
    make_ready(alloc, disk, &layout)?;
    index_homes(alloc, disk, &layout)
}
