ghost use Rattle.std.specs.Prelude.{◌≡◌, ◌<◌, ◌≤◌, ◌+◌, ◌/◌, ◌*◌, ℕ, List, length, true, OnOk, OnErr};
ghost use Rattle.s38_disk.specs.Blocks.{DiskState, put};
ghost use Rattle.s38_base.specs.Faults.{HasCause};
ghost use Rattle.s38_disk.specs.Costs.{Costs};
ghost use Rattle.s38_disk.specs.Disk.{DiskView, IsAt, moment_of};
ghost use Rattle.s38_disk.specs.Moves.{IsSynced, Moves, MovesBy, Near, SameBut};
ghost use Rattle.s38_redo_log.specs.Store.{entries_written, targets};
ghost use Rattle.s38_redo_log.specs.Phases.{AreBelow, gate, in_log};

use crate::Slot;
use s38_base::Failed;
use s38_disk::{Block, Disk};

/// Writes the gate, and syncs.
pub fn write_gate<D: Disk>(disk: &mut D, block: &Block) -> Result<(), Failed>
    requires { 1 < (D.view disk.old).size }
    ensures moves { Moves (D.view disk.old) (D.view disk.new) 2 (Near gate) }
    ensures cost { Costs (D.view disk.old) (D.view disk.new) 1 1 }
    ensures rises { OnOk result (moment_of (D.view disk.old).past < moment_of (D.view disk.new).past) }
    ensures done { OnOk result (MovesBy (D.view disk.old) (D.view disk.new) (λ s t. IsSynced t × (t.now ≡ put 1 block.now s.now))) }
    ensures cause { HasCause (D.view disk.old).faults (D.view disk.new).faults result }
    ensures count { OnOk result ((D.view disk.new).faults ≡ (D.view disk.old).faults) }
{
    disk.write(1, block)?;
    disk.sync()?;
    Ok(())
}

/// Writes each block of the log to its home, and syncs.
pub fn write_homes<D: Disk>(disk: &mut D, slots: &[Slot]) -> Result<(), Failed>
    requires { AreBelow (D.view disk.old).size slots.now }
    ensures moves { Moves (D.view disk.old) (D.view disk.new) (length slots.now + 1) (Near (targets slots.now)) }
    ensures cost { Costs (D.view disk.old) (D.view disk.new) (length slots.now) 1 }
    ensures done { OnOk result (MovesBy (D.view disk.old) (D.view disk.new) (λ s t. IsSynced t × ((i : ℕ) → t.now i ≡ entries_written slots.now s.now i))) }
    ensures cause { HasCause (D.view disk.old).faults (D.view disk.new).faults result }
    ensures count { OnOk result ((D.view disk.new).faults ≡ (D.view disk.old).faults) }
{
    for slot in slots {
        disk.write(slot.home, &slot.block)?;
    }
    disk.sync()?;
    Ok(())
}
