ghost use Rattle.std.specs.Prelude.{◌≡◌, ◌<◌, ◌≤◌, ◌+◌, ◌/◌, ◌*◌, ◌^◌, ℕ, List, length, true, false, OnOk, OnErr};
ghost use Rattle.s38_base.specs.Faults.{HasCause};
ghost use Rattle.s38_disk.specs.Costs.{Costs};
ghost use Rattle.s38_disk.specs.Disk.{DiskView, moment_of};
ghost use Rattle.s38_disk.specs.Moves.{Moves, MovesBy};
ghost use Rattle.s38_redo_log.specs.Coding.{is_up};
ghost use Rattle.s38_redo_log.specs.Store.{IsLayout, IsLog};
ghost use Rattle.s38_redo_log.specs.Phases.{HasRedone, IsAllOrNone, IsPut, IsRedone};

use crate::coding::{up_block, zero_block};
use crate::log::write_log;
use crate::phases::{write_gate, write_homes};
use crate::{Layout, Slot};
use s38_base::Failed;
use s38_disk::{Block, Disk};

/// Brings the blocks into their homes, all of them or none whenever a crash comes.
pub fn commit<D: Disk>(disk: &mut D, layout: &Layout, slots: &[Slot]) -> Result<(), Failed>
    requires layout { IsLayout layout.now }
    requires few { layout.now.most < 2 ^ 31 }
    requires log { IsLog layout.now slots.now }
    requires size { layout.now.size ≤ (D.view disk.old).size }
    ensures moves { Moves (D.view disk.old) (D.view disk.new) (2 * length slots.now + length slots.now / 132 + 7) (IsAllOrNone layout.now slots.now) }
    ensures cost { Costs (D.view disk.old) (D.view disk.new) (2 * length slots.now + length slots.now / 132 + 3) 4 }
    ensures done { OnOk result (MovesBy (D.view disk.old) (D.view disk.new) (IsPut layout.now slots.now)) }
    ensures rises { OnOk result (moment_of (D.view disk.old).past < moment_of (D.view disk.new).past) }
    ensures cause { HasCause (D.view disk.old).faults (D.view disk.new).faults result }
    ensures count { OnOk result ((D.view disk.new).faults ≡ (D.view disk.old).faults) }
{
    write_log(disk, slots)?;
    write_gate(disk, &up_block())?;
    write_homes(disk, slots)?;
    write_gate(disk, &zero_block())?;
    Ok(())
}

/// Replays the log whose gate is up.
pub fn redo<D: Disk>(disk: &mut D, layout: &Layout, slots: &[Slot]) -> Result<(), Failed>
    requires layout { IsLayout layout.now }
    requires log { IsLog layout.now slots.now }
    requires size { layout.now.size ≤ (D.view disk.old).size }
    ensures moves { Moves (D.view disk.old) (D.view disk.new) (length slots.now + 3) (IsRedone layout.now slots.now) }
    ensures done { OnOk result (MovesBy (D.view disk.old) (D.view disk.new) (HasRedone layout.now slots.now)) }
    ensures cause { HasCause (D.view disk.old).faults (D.view disk.new).faults result }
    ensures count { OnOk result ((D.view disk.new).faults ≡ (D.view disk.old).faults) }
{
    write_homes(disk, slots)?;
    write_gate(disk, &zero_block())?;
    Ok(())
}
