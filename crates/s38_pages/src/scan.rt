//! Reading all homes in order, as the vault is mounted.
ghost use Rattle.std.specs.Prelude.{◌≡◌, ◌≤◌, ◌<◌, ◌+◌, None, Some, IfErr, IfOk, OnOk, length, true};
ghost use Rattle.std.specs.BTreeMap.{IsEmpty};
ghost use Rattle.std.specs.FinMap.{empty, get, len};
ghost use Rattle.s38_base.specs.Faults.{HasCauseOf};
ghost use Rattle.s38_redo_log.specs.declared.layout.Layout.{Layout};
ghost use Rattle.s38_redo_log.specs.Store.{is_home};
ghost use Rattle.s38_disk.specs.Blocks.{DiskState};
ghost use Rattle.s38_disk.specs.Disk.{IsAt};
ghost use Rattle.s38_pages.specs.Mounts.{IsIndexFault, IsNotOfSize};
ghost use Rattle.s38_pages.specs.Scan.{IsScannedTo, ScanGives, home_noted, homes_of, twin_of};

use crate::fault::StoreFault;
use crate::marks::Marks;
use s38_base::{Key, NoMemory};
use s38_disk::{Block, Disk};
use s38_redo_log::{Layout, key_of, zero_block};
use s38_vault::Keyed;
use std::alloc::Global;
use std::collections::BTreeMap;

/// Notes the block of a home. If another home already holds its key, the answer is that home, and nothing is noted.
fn note(
    homes: &mut BTreeMap<Key, u32>,
    marks: &mut Marks,
    at: u32,
    block: &Block,
) -> Result<Option<u32>, NoMemory>
    requires { at < length marks.old }
    ensures twin { IfOk result (λ twin. twin ≡ twin_of (get (homes_of homes.old)) block.now) }
    ensures index { OnOk result (get (homes_of homes.new) ≡ home_noted (get (homes_of homes.old)) at block.now) }
    ensures keeps { OnOk result ((lay : Layout) → IsScannedTo lay (homes_of homes.old) marks.old at → is_home lay at ≡ true → IsScannedTo lay (homes_of homes.new) marks.new (at + 1)) }
    ensures size { length marks.new ≡ length marks.old }
{
    let key = key_of(block);
    if key.object == 0 {
        return Ok(None);
    }
    match homes.get(&key).copied() {
        Some(twin) => Ok(Some(twin)),
        None => {
            homes.insert(key, at)?;
            marks.mark(at as usize);
            Ok(None)
        }
    }
}

/// Reads all homes in order. Some where two have one key: the pair whose second is the least.
fn read_homes<D: Disk>(
    disk: &mut D,
    layout: &Layout,
    homes: &mut BTreeMap<Key, u32>,
    marks: &mut Marks,
) -> Result<Option<(u32, u32)>, StoreFault>
    requires size { layout.now.size ≤ (D.view disk.old).size }
    requires order { layout.now.first ≤ layout.now.size }
    requires empty { homes_of homes.old ≡ empty }
    requires keeps { IsScannedTo layout.now (homes_of homes.old) marks.old layout.now.first }
    ensures gives { IfOk result (λ pair. (s : DiskState) → IsAt (D.view disk.old).past s → ScanGives layout.now s.now pair (get (homes_of homes.new))) }
    ensures keeps { IfOk result (λ pair. pair ≡ None → IsScannedTo layout.now (homes_of homes.new) marks.new layout.now.size) }
    ensures past { (D.view disk.new).past ≡ (D.view disk.old).past }
    ensures size { (D.view disk.new).size ≡ (D.view disk.old).size }
    ensures refused { IfErr result (λ fault. (s : DiskState) → IsAt (D.view disk.old).past s → IsIndexFault layout.now s.now fault) }
    ensures other { IfErr result IsNotOfSize }
    ensures cause { HasCauseOf (D.view disk.old).faults (D.view disk.new).faults result StoreFault.Failed }
    ensures count { OnOk result ((D.view disk.new).faults ≡ (D.view disk.old).faults) }
{
    let mut block = zero_block();
    for at in layout.first..layout.size {
        if at != layout.hole {
            disk.read(at, &mut block)?;
            if let Some(twin) = note(homes, marks, at, &block)? {
                return Ok(Some((twin, at)));
            }
        }
    }
    Ok(None)
}

/// Puts the homes of a tree into an empty index. Their keys rise, so each goes to the end.
fn fill(homes: &mut Keyed<u32>, found: &BTreeMap<Key, u32>)
    requires empty { homes.old.values ≡ empty }
    requires room { len (homes_of found.now) ≤ homes.old.spare }
    ensures { homes.new.values ≡ homes_of found.now }
{
    for (key, home) in found.iter() {
        homes.insert(*key, *home);
    }
}

/// Reads all homes. Some where two have one key: the pair whose second is the least. A tree takes the keys as they come, so
/// that their order costs nothing.
pub fn scan<D: Disk>(
    alloc: Global,
    disk: &mut D,
    layout: &Layout,
    homes: &mut Keyed<u32>,
    marks: &mut Marks,
) -> Result<Option<(u32, u32)>, StoreFault>
    requires size { layout.now.size ≤ (D.view disk.old).size }
    requires order { layout.now.first ≤ layout.now.size }
    requires room { layout.now.size ≤ homes.old.spare + layout.now.first }
    requires empty { homes.old.values ≡ empty }
    requires keeps { IsScannedTo layout.now homes.old.values marks.old layout.now.first }
    ensures gives { IfOk result (λ pair. (s : DiskState) → IsAt (D.view disk.old).past s → ScanGives layout.now s.now pair (get homes.new.values)) }
    ensures keeps { IfOk result (λ pair. pair ≡ None → IsScannedTo layout.now homes.new.values marks.new layout.now.size) }
    ensures past { (D.view disk.new).past ≡ (D.view disk.old).past }
    ensures size { (D.view disk.new).size ≡ (D.view disk.old).size }
    ensures refused { IfErr result (λ fault. (s : DiskState) → IsAt (D.view disk.old).past s → IsIndexFault layout.now s.now fault) }
    ensures other { IfErr result IsNotOfSize }
    ensures cause { HasCauseOf (D.view disk.old).faults (D.view disk.new).faults result StoreFault.Failed }
    ensures count { OnOk result ((D.view disk.new).faults ≡ (D.view disk.old).faults) }
{
    let mut found = BTreeMap::new(alloc);
    match read_homes(disk, layout, &mut found, marks)? {
        Some(pair) => Ok(Some(pair)),
        None => {
            fill(homes, &found);
            Ok(None)
        }
    }
}
