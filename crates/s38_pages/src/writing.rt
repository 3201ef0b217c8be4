ghost use Rattle.std.specs.Prelude.{◌≡◌, ◌<◌, ◌≤◌, ◌+◌, ◌/◌, ◌*◌, ◌^◌, length, OnOk};
ghost use Rattle.s38_base.specs.Faults.{HasCause};
ghost use Rattle.s38_disk.specs.Costs.{Costs};
ghost use Rattle.s38_disk.specs.Disk.{moment_of};
ghost use Rattle.s38_disk.specs.Moves.{Moves, MovesBy};
ghost use Rattle.s38_redo_log.specs.Phases.{IsAllOrNone, IsPut};
ghost use Rattle.s38_redo_log.specs.Store.{AreHomes, IsLayout};

use s38_base::Failed;
use s38_disk::Disk;
use s38_redo_log::{Layout, Slot, commit};

/// Brings the slots into their homes, all of them or none whenever a crash comes. Without a slot it only syncs.
pub fn write_all<D: Disk>(disk: &mut D, layout: &Layout, slots: &[Slot]) -> Result<(), Failed>
    requires layout { IsLayout layout.now }
    requires few { layout.now.most < 2 ^ 31 }
    requires most { length slots.now ≤ layout.now.most }
    requires homes { AreHomes layout.now slots.now }
    requires size { layout.now.size ≤ (D.view disk.old).size }
    ensures moves { Moves (D.view disk.old) (D.view disk.new) (2 * length slots.now + length slots.now / 132 + 7) (IsAllOrNone layout.now slots.now) }
    ensures cost { Costs (D.view disk.old) (D.view disk.new) (2 * length slots.now + length slots.now / 132 + 3) 4 }
    ensures done { OnOk result (MovesBy (D.view disk.old) (D.view disk.new) (IsPut layout.now slots.now)) }
    ensures rises { OnOk result (moment_of (D.view disk.old).past < moment_of (D.view disk.new).past) }
    ensures cause { HasCause (D.view disk.old).faults (D.view disk.new).faults result }
    ensures count { OnOk result ((D.view disk.new).faults ≡ (D.view disk.old).faults) }
{
    if slots.is_empty() {
        disk.sync()?;
        return Ok(());
    }
    commit(disk, layout, slots)
}
