ghost use Rattle.std.specs.Prelude.{◌≡◌, ◌<◌, ℕ, OnOk, is_ok};
ghost use Rattle.s38_base.specs.Faults.{HasCause};
ghost use Rattle.s38_disk.specs.Blocks.{DiskState};
ghost use Rattle.s38_disk.specs.Disk.{DiskView, IsAt, Notes, moment_of};

use crate::block::{Block, Call};
use s38_base::Failed;

/// Blocks that stay when the program ends. A write is on disk for certain only after a later sync that answered Ok. Until
/// then a crash may leave any bytes in that block, and every other block as it was. A call that fails is counted.
pub trait Disk {
    /// How many blocks there are, what was done to the disk, and how often it has failed.
    ghost view: { Self → DiskView };

    /// How many blocks there are. No call changes it.
    fn blocks(&self) -> u32
        ensures { result ≡ (view self.now).size };

    /// The moment. It counts the writes and syncs.
    fn moment(&self) -> u64
        ensures { result ≡ moment_of (view self.now).past };

    /// Reads a block, as it was last written. After `Failed` the given block may hold any bytes.
    fn read(&mut self, at: u32, into: &mut Block) -> Result<(), Failed>
        requires { at < (view self.old).size }
        ensures gives { OnOk result ((s : DiskState) → IsAt (view self.old).past s → into.new ≡ s.now at) }
        ensures size { (view self.new).size ≡ (view self.old).size }
        ensures past { (view self.new).past ≡ (view self.old).past }
        ensures cause { HasCause (view self.old).faults (view self.new).faults result }
        ensures count { OnOk result ((view self.new).faults ≡ (view self.old).faults) };

    /// Writes a block. After `Failed` the block counts as written, or the call left no trace and the moment stays.
    fn write(&mut self, at: u32, from: &Block) -> Result<(), Failed>
        requires { at < (view self.old).size }
        ensures notes { Notes (view self.old) (view self.new) (is_ok result) (Call.Wrote at from.now) }
        ensures cause { HasCause (view self.old).faults (view self.new).faults result }
        ensures count { OnOk result ((view self.new).faults ≡ (view self.old).faults) };

    /// Makes all that was written stay. After `Failed` nothing more stays than before.
    fn sync(&mut self) -> Result<(), Failed>
        ensures notes { Notes (view self.old) (view self.new) (is_ok result) (Call.Synced (is_ok result)) }
        ensures cause { HasCause (view self.old).faults (view self.new).faults result }
        ensures count { OnOk result ((view self.new).faults ≡ (view self.old).faults) };
}
