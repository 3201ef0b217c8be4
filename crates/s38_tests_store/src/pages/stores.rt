//! Stores on a disk in memory, and what they hold.
ghost use Rattle.std.specs.Prelude.{◌≡◌};

use s38_base::{Change, Key, Page};
use s38_disk::{Disk, MemDisk};
use s38_pages::{PageVault, StoreFault};
use s38_vault::Vault;
use std::alloc::Global;
use std::test::Fail;

fn key(part: u32) -> Key
    ensures { result ≡ record { object = 7; part = part } }
{
    Key { object: 7, part }
}

/// A part is put, filled with one byte, or taken away.
fn put_at(part: u32, fill: Option<u8>) -> Change
    ensures { result.key ≡ record { object = 7; part = part } }
{
    Change {
        key: key(part),
        page: match fill {
            Some(fill) => Some(Page {
                bytes: [fill; 512],
                tags: u32::from(fill),
            }),
            None => None,
        },
    }
}

/// A store of two parts is made on a disk.
fn make(alloc: Global, disk: MemDisk) -> Result<PageVault<MemDisk>, (MemDisk, StoreFault)> {
    PageVault::format(alloc, disk, &[put_at(0, Some(1)), put_at(1, Some(2))])
}

/// The byte with which the page at a part is filled, if the part is there.
fn fill_at<V: Vault>(vault: &mut V, part: u32) -> Result<Option<u8>, Fail> {
    match vault.get(key(part))? {
        Some(page) => Ok(Some(page.bytes[511])),
        None => Ok(None),
    }
}

/// What the three parts hold.
fn contents<V: Vault>(vault: &mut V) -> Result<[Option<u8>; 3], Fail> {
    Ok([fill_at(vault, 0)?, fill_at(vault, 1)?, fill_at(vault, 2)?])
}

/// A store is made, once more where memory was refused at first. Whether nothing was written before.
fn made_at_last(alloc: Global, disk: MemDisk) -> Result<(PageVault<MemDisk>, bool), Fail> {
    match make(alloc, disk) {
        Ok(vault) => Ok((vault, true)),
        Err((disk, StoreFault::NoMemory)) => {
            let unwritten = disk.moment() == 0;
            match make(alloc, disk) {
                Ok(vault) => Ok((vault, unwritten)),
                Err((_disk, fault)) => Err(fault)?,
            }
        }
        Err((_disk, fault)) => Err(fault)?,
    }
}

/// It holds also where one allocation of the making fails.
#[test]
fn memory_is_taken_before_anything_is_written(rt: HostRuntime) -> Result<(), Fail> {
    let disk = MemDisk::new(rt.alloc(), 4096, Vec::new(rt.alloc()))?;
    let (mut vault, unwritten) = made_at_last(rt.alloc(), disk)?;
    let parts = contents(&mut vault);
    let free = vault.free();
    let _disk = vault.release();
    let parts = parts?;
    assert!(rt; unwritten && parts == [Some(1), Some(2), None] && free == 1788);
    Ok(())
}

#[test]
fn a_store_without_a_page_is_made(rt: HostRuntime) -> Result<(), Fail> {
    let disk = MemDisk::new(rt.alloc(), 4096, Vec::new(rt.alloc()))?;
    match PageVault::format(rt.alloc(), disk, &[]) {
        Ok(vault) => {
            let free = vault.free();
            let next = vault.next_key(None);
            let _disk = vault.release();
            assert!(rt; free == 1790 && next == None);
            Ok(())
        }
        Err((_disk, fault)) => Err(fault)?,
    }
}
