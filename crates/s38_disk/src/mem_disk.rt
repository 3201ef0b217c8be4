ghost use Rattle.std.specs.Prelude.{◌≡◌, ◌↔◌, ◌<◌, ◌≤◌, [], ℕ, IfOk, IsErr, IsTrue, OnErr, OnOk, is_err, is_ok, length, replicate};
ghost use Rattle.s38_base.specs.Faults.{HasCause};
ghost use Rattle.s38_disk.specs.Blocks.{DiskState, IsCrashImage, blocks_of_list, full_of};
ghost use Rattle.s38_disk.specs.Disk.{IsAt, IsCrashImageAt, Notes};
ghost use Rattle.s38_disk.specs.Memory.{after_call, disk_view, fails_next, image_by, state_at};

use crate::block::{Block, Call};
use crate::disk::Disk;
use crate::fault_plan::FaultPlan;
use crate::replay::replay;
use s38_base::{Failed, NoMemory};
use std::alloc::Global;
use std::marker::Model;

/// A disk in memory, which tells its past. Contracts see how many blocks there are, what they held at first, all writes
/// and syncs since, and which calls are to fail, how many were made and how many failed.
#[derive(Drop)]
pub struct MemDisk {
    first: Vec<Block>,
    blocks: Vec<Block>,
    calls: Vec<Call>,
    plan: FaultPlan,
    size: u32,
}

impl Model for MemDisk {
    ghost use Rattle.s38_disk.specs.Memory.{IsDisk, MemStore};

    ghost Value = { MemStore };

    ghost view = { λ d. record { size = d.size; first = d.first.items; calls = d.calls.items; plan = d.plan } };

    ghost invariant = { λ d. IsDisk d.size d.first.items d.blocks.items d.calls.items };
}

impl MemDisk {
    /// A disk of blocks of zeros. The calls in the list fail, counted from 0, and no others unless memory is refused.
    pub fn new(alloc: Global, blocks: u32, failing: Vec<u64>) -> Result<Self, NoMemory>
        ensures { IfOk result (λ d. d ≡ record { size = blocks; first = replicate blocks (full_of 0); calls = []; plan = record { failing = failing.items; made = 0; faults = 0 } }) }
    {
        let mut first = Vec::new(alloc);
        first.resize(blocks as usize, Block { bytes: [0; 528] })?;
        let now = first.to_vec(alloc)?;
        Ok(MemDisk {
            first,
            blocks: now,
            calls: Vec::new(alloc),
            plan: FaultPlan::new(failing),
            size: blocks,
        })
    }

    /// The disk that a crash at a moment leaves: blocks that were written since the last good sync are old for fill 0,
    /// new for fill 1, and else full of the fill. On it all is durable, and no call is to fail.
    pub fn crash(self, alloc: Global, moment: u64, fill: u8) -> Self
        requires { moment ≤ length self.calls }
        ensures blocks { (i : ℕ) → blocks_of_list result.first i ≡ image_by fill (state_at self moment) i }
        ensures image { IsCrashImageAt (disk_view self).past moment (blocks_of_list result.first) }
        ensures size { result.size ≡ self.size }
        ensures calls { result.calls ≡ [] }
        ensures plan { result.plan ≡ record { failing = []; made = 0; faults = 0 } }
    {
        let MemDisk {
            mut first,
            mut blocks,
            mut calls,
            size,
            ..
        } = self;
        replay(&mut first, &calls[..moment as usize], fill);
        blocks.copy_from_slice(&first);
        calls.clear();
        MemDisk {
            first,
            blocks,
            calls,
            plan: FaultPlan::none(alloc),
            size,
        }
    }
}

impl Disk for MemDisk {
    ghost view = { λ d. disk_view d };

    fn blocks(&self) -> u32 {
        self.size
    }

    fn moment(&self) -> u64 {
        self.calls.len() as u64
    }

    fn read(&mut self, at: u32, into: &mut Block) -> Result<(), Failed>
        requires { at < self.old.size }
        ensures gives { OnOk result ((s : DiskState) → IsAt (disk_view self.old).past s → into.new ≡ s.now at) }
        ensures size { self.new.size ≡ self.old.size }
        ensures past { (disk_view self.new).past ≡ (disk_view self.old).past }
        ensures cause { HasCause self.old.plan.faults self.new.plan.faults result }
        ensures count { OnOk result (self.new.plan.faults ≡ self.old.plan.faults) }

        // It fails exactly at the listed calls.
        ensures listed { IsErr result ↔ IsTrue (fails_next self.old.plan) }
        ensures plan { self.new.plan ≡ after_call self.old.plan (is_err result) }
    {
        let failed = self.plan.fails_next();
        self.plan.count(failed);
        if failed {
            return Err(Failed);
        }
        *into = self.blocks[at as usize];
        Ok(())
    }

    fn write(&mut self, at: u32, from: &Block) -> Result<(), Failed>
        requires { at < self.old.size }
        ensures notes { Notes (disk_view self.old) (disk_view self.new) (is_ok result) (Call.Wrote at from.now) }
        ensures cause { HasCause self.old.plan.faults self.new.plan.faults result }
        ensures count { OnOk result (self.new.plan.faults ≡ self.old.plan.faults) }

        // It fails at the listed calls, and at others only for want of memory.
        ensures listed { IsTrue (fails_next self.old.plan) → IsErr result }
        ensures plan { self.new.plan ≡ after_call self.old.plan (is_err result) }
    {
        let failed = self.plan.fails_next();
        if self.calls.push(Call::Wrote { at, block: *from }).is_err() {
            self.plan.count(true);
            return Err(Failed);
        }
        self.blocks[at as usize] = *from;
        self.plan.count(failed);
        if failed { Err(Failed) } else { Ok(()) }
    }

    fn sync(&mut self) -> Result<(), Failed>
        ensures notes { Notes (disk_view self.old) (disk_view self.new) (is_ok result) (Call.Synced (is_ok result)) }
        ensures cause { HasCause self.old.plan.faults self.new.plan.faults result }
        ensures count { OnOk result (self.new.plan.faults ≡ self.old.plan.faults) }

        // It fails at the listed calls, and at others only for want of memory.
        ensures listed { IsTrue (fails_next self.old.plan) → IsErr result }
        ensures plan { self.new.plan ≡ after_call self.old.plan (is_err result) }
    {
        let failed = self.plan.fails_next();
        if self.calls.push(Call::Synced { good: !failed }).is_err() {
            self.plan.count(true);
            return Err(Failed);
        }
        self.plan.count(failed);
        if failed { Err(Failed) } else { Ok(()) }
    }
}
