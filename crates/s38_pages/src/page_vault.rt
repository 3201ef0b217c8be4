ghost use Rattle.std.specs.Prelude.{◌≡◌, ◌<◌, ◌≤◌, ◌+◌, ◌/◌, ◌*◌, ℕ, length, is_ok, false, true, IfErr, IfOk, OnOk};
ghost use Rattle.std.specs.FinMap.{get};
ghost use Rattle.s38_base.specs.Faults.{HasCause, Rose};
ghost use Rattle.s38_redo_log.specs.Coding.{is_store_label};
ghost use Rattle.s38_redo_log.specs.Store.{RecoversTo};
ghost use Rattle.std.specs.Vec.{vec_capacity};
ghost use Rattle.s38_disk.specs.Blocks.{DiskState};
ghost use Rattle.s38_pages.specs.Formats.{IsMaking, IsUnmade, first_content, most_first};
ghost use Rattle.s38_pages.specs.Mounts.{IsMounted, IsRefused, IsSized, fewest, layout_of};
ghost use Rattle.s38_disk.specs.Costs.{Costs};
ghost use Rattle.s38_disk.specs.Disk.{IsAt, moment_of};
ghost use Rattle.s38_disk.specs.Moves.{IsSynced, Moves};
ghost use Rattle.s38_vault.specs.Content.{AreRising, Content, HaveObjects, changed};
ghost use Rattle.s38_vault.specs.Directory.{changed_keys, keys_of, new_keys};
ghost use Rattle.s38_pages.specs.Vaults.{IsOneOf, IsVault, page_holds, page_leaves, page_view};

use crate::fault::StoreFault;
use crate::formatting::create;
use crate::marks::Marks;
use crate::mounting::{Opened, open};
use crate::plan::{give_back, plan};
use crate::writing::write_all;
use s38_base::{Change, Failed};
use s38_disk::Disk;
use s38_redo_log::{Layout, Slot};
use s38_vault::Keyed;
use std::alloc::Global;
use std::marker::Model;
use std::snapshot::Snapshot;

/// A vault over a disk. After a put that failed it no longer tells what it holds, and each further put is refused.
/// Contracts see the disk and the layout, which home holds each key, for how many new keys memory is reserved,
/// whether no put has failed, how many puts were refused since one failed, and how often the disk had failed as the vault
/// was made.
#[derive(Drop)]
pub struct PageVault<D: Disk> {
    pub(crate) disk: D,
    pub(crate) layout: Layout,
    pub(crate) homes: Keyed<u32>,
    marks: Marks,
    slots: Vec<Slot>,
    pub(crate) good: bool,
    pub(crate) refused: u64,
    before: Snapshot<D>,
}

impl<D: Disk> Model for PageVault<D> {
    ghost use Rattle.std.specs.Vec.{vec_capacity};
    ghost use Rattle.std.specs.Coded.{codes};
    ghost use Rattle.s38_pages.specs.Mounts.{layout_of};
    ghost use Rattle.s38_pages.specs.Vaults.{AreOfDisk, IsVault, PageStore, homes_code};
    ghost use Rattle.std.specs.Prelude.{◌≡◌};

    ghost Value = { PageStore };

    ghost coded = { Prim.hlevel (codes, homes_code) };

    ghost view = { λ v. record { disk = D.view v.disk; layout = v.layout; homes = v.homes.values; spare = v.homes.spare; good = v.good; refused = v.refused; start = (D.view v.before.value).faults } };

    ghost invariant = { λ v. record { vault : IsVault v.layout (D.view v.disk) v.homes.values v.marks v.slots.items (vec_capacity v.slots) v.good; faults : AreOfDisk (D.view v.before.value).faults (D.view v.disk) v.good v.refused; placed : v.layout ≡ layout_of (D.view v.disk).size } };
}

impl<D: Disk> PageVault<D> {
    /// The vault over a disk whose store was opened.
    fn over(disk: D, opened: Opened) -> Self
        requires vault { IsVault opened.layout (D.view disk) opened.homes.values opened.marks opened.slots.items (vec_capacity opened.slots) true }
        requires placed { opened.layout ≡ layout_of (D.view disk).size }
        ensures { result ≡ record { disk = D.view disk; layout = opened.layout; homes = opened.homes.values; spare = opened.homes.spare; good = true; refused = 0; start = (D.view disk).faults } }
    {
        let before = Snapshot::of(&disk);
        let Opened {
            layout,
            homes,
            marks,
            slots,
        } = opened;
        PageVault {
            disk,
            layout,
            homes,
            marks,
            slots,
            good: true,
            refused: 0,
            before,
        }
    }

    /// Mounts the store on a disk: the log is replayed if its gate is up. The disk comes back with the reason where
    /// the store is refused. Whenever a crash comes meanwhile, the store mounts to the same content.
    pub fn mount(alloc: Global, mut disk: D) -> Result<Self, (D, StoreFault)>
        ensures vault { IfOk result (λ v. (v.good ≡ true) × (v.refused ≡ 0) × (v.layout ≡ layout_of (D.view disk).size)) }
        ensures content { IfOk result (λ v. (s : DiskState) → IsAt (D.view disk).past s → (m : Content) × (RecoversTo (layout_of (D.view disk).size) s.now m × page_holds v m)) }
        ensures moves { IfOk result (λ v. Moves (D.view disk) v.disk 2290 (IsMounted (layout_of (D.view disk).size))) }
        ensures count { IfOk result (λ v. v.disk.faults ≡ (D.view disk).faults) }
        ensures start { IfOk result (λ v. v.start ≡ (D.view disk).faults) }
        ensures refused { IfErr result (λ e. (s : DiskState) → IsAt (D.view disk).past s → IsRefused (D.view disk).size s.now e.1) }
        ensures large { OnOk result (fewest ≤ (D.view disk).size) }
        ensures sized { IfErr result (λ e. IsSized (D.view disk).size e.1) }
        ensures crash { IfErr result (λ e. Moves (D.view disk) (D.view e.0) 2290 (IsMounted (layout_of (D.view disk).size))) }
        ensures cause { IfErr result (λ e. e.1 ≡ StoreFault.Failed → Rose (D.view disk).faults (D.view e.0).faults) }
    {
        match open(alloc, &mut disk) {
            Ok(opened) => Ok(PageVault::over(disk, opened)),
            Err(fault) => Err((disk, fault)),
        }
    }

    /// Makes a store on a disk without a label, with the changes as its first content, and mounts it. The disk comes back
    /// with the reason where no store is made. Whenever a crash comes meanwhile, the disk has no label, or the store is
    /// whole.
    pub fn format(alloc: Global, mut disk: D, first: &[Change]) -> Result<Self, (D, StoreFault)>
        requires few { length first.now ≤ most_first }
        requires rising { AreRising first.now }
        requires objects { HaveObjects first.now }
        ensures vault { IfOk result (λ v. (v.good ≡ true) × (v.refused ≡ 0) × (v.layout ≡ layout_of (D.view disk).size)) }
        ensures content { IfOk result (λ v. (s : DiskState) → IsAt (D.view disk).past s → page_holds v (first_content first.now)) }
        ensures keys { IfOk result (λ v. keys_of v.homes ≡ keys_of (first_content first.now)) }
        ensures large { OnOk result (fewest ≤ (D.view disk).size) }
        ensures fresh { OnOk result ((s : DiskState) → IsAt (D.view disk).past s → is_store_label (s.now 0) ≡ false) }
        ensures moves { IfOk result (λ v. Moves (D.view disk) v.disk (v.layout.size + length first.now + 3) (IsMaking v.layout (first_content first.now))) }
        ensures count { IfOk result (λ v. v.disk.faults ≡ (D.view disk).faults) }
        ensures start { IfOk result (λ v. v.start ≡ (D.view disk).faults) }
        ensures refused { IfErr result (λ e. IsUnmade (D.view disk) e.1) }
        ensures kept { IfErr result (λ e. (e.1 ≡ StoreFault.Failed → ⊥) → (D.view e.0).past ≡ (D.view disk).past) }
        ensures crash { IfErr result (λ e. Moves (D.view disk) (D.view e.0) ((layout_of (D.view disk).size).size + length first.now + 3) (IsMaking (layout_of (D.view disk).size) (first_content first.now))) }
        ensures cause { IfErr result (λ e. e.1 ≡ StoreFault.Failed → Rose (D.view disk).faults (D.view e.0).faults) }
    {
        match create(alloc, &mut disk, first) {
            Ok(made) => Ok(PageVault::over(disk, made)),
            Err(fault) => Err((disk, fault)),
        }
    }

    /// Gives the disk back. What the vault tells that it holds is what the blocks of the disk hold. Nothing is pending
    /// where no put has failed. Since the vault was made the disk's count of faults rose where the vault's did, and stayed
    /// the same where the vault's did.
    pub fn release(self) -> D
        ensures disk { D.view result ≡ self.disk }
        ensures layout { self.layout ≡ layout_of (D.view result).size }
        ensures stands { (m : Content) → page_holds self m → (s : DiskState) → IsAt (D.view result).past s → RecoversTo (layout_of (D.view result).size) s.now m }
        ensures settled { self.good ≡ true → (s : DiskState) → IsAt (D.view result).past s → IsSynced s }
        ensures cause { Rose self.start (page_view self).faults → Rose self.start (D.view result).faults }
        ensures count { (page_view self).faults ≡ self.start → (D.view result).faults ≡ self.start }
    {
        let PageVault {
            disk,
            homes: _homes,
            marks: _marks,
            slots: _slots,
            layout: _layout,
            good: _good,
            refused: _refused,
            before: _before,
        } = self;
        disk
    }

    /// Makes changes for which there is room.
    pub(crate) fn put_all(&mut self, changes: &[Change]) -> Result<(), Failed>
        requires good { self.old.good ≡ true }
        requires few { length changes.now ≤ self.old.layout.most }
        requires rising { AreRising changes.now }
        requires objects { HaveObjects changes.now }
        requires room { length changes.now ≤ self.old.spare }
        requires free { new_keys (keys_of self.old.homes) changes.now ≤ (page_view self.old).free }
        ensures layout { self.new.layout ≡ self.old.layout }
        ensures moves { Moves self.old.disk self.new.disk (2 * length changes.now + length changes.now / 132 + 7) (IsOneOf self.old.layout (get self.old.homes) changes.now) }
        ensures cost { Costs self.old.disk self.new.disk (2 * length changes.now + length changes.now / 132 + 3) 4 }
        ensures keys { keys_of self.new.homes ≡ changed_keys (keys_of self.old.homes) changes.now }
        ensures good { self.new.good ≡ is_ok result }
        ensures refused { self.new.refused ≡ self.old.refused }
        ensures start { self.new.start ≡ self.old.start }
        ensures spare { self.old.spare ≤ self.new.spare + length changes.now }
        ensures holds { OnOk result ((m : Content) → page_holds self.old m → page_holds self.new (changed m changes.now)) }
        ensures told { OnOk result ((n : Content) → page_holds self.new n → (m : Content) × (page_holds self.old m × (n ≡ changed m changes.now))) }
        ensures after { OnOk result ((m n : Content) → page_holds self.old m → page_leaves self.new (moment_of self.new.disk.past) n → n ≡ changed m changes.now) }
        ensures rises { OnOk result (moment_of self.old.disk.past < moment_of self.new.disk.past) }
        ensures cause { HasCause self.old.disk.faults self.new.disk.faults result }
        ensures count { OnOk result (self.new.disk.faults ≡ self.old.disk.faults) }
    {
        plan(&mut self.homes, &mut self.marks, &mut self.slots, changes);
        let written = write_all(&mut self.disk, &self.layout, &self.slots);
        give_back(&mut self.marks, &self.slots);
        self.slots.clear();
        self.good = written.is_ok();
        written
    }
}
