ghost use Rattle.std.specs.Prelude.{◌≡◌, ◌<◌, ◌≤◌, IfOk, OnOk};
ghost use Rattle.s38_base.specs.Faults.{HasCause};
ghost use Rattle.s38_disk.specs.Blocks.{DiskState};
ghost use Rattle.s38_disk.specs.Disk.{IsAt};
ghost use Rattle.s38_redo_log.specs.Coding.{page_in};

use s38_base::{Failed, Page};
use s38_disk::Disk;
use s38_redo_log::{page_of, zero_block};

/// The page of a home.
pub fn read_page<D: Disk>(disk: &mut D, home: u32) -> Result<Page, Failed>
    requires { home < (D.view disk.old).size }
    ensures gives { IfOk result (λ page. (s : DiskState) → IsAt (D.view disk.old).past s → page ≡ page_in (s.now home)) }
    ensures size { (D.view disk.new).size ≡ (D.view disk.old).size }
    ensures past { (D.view disk.new).past ≡ (D.view disk.old).past }
    ensures cause { HasCause (D.view disk.old).faults (D.view disk.new).faults result }
    ensures count { OnOk result ((D.view disk.new).faults ≡ (D.view disk.old).faults) }
{
    let mut block = zero_block();
    disk.read(home, &mut block)?;
    Ok(page_of(&block))
}
