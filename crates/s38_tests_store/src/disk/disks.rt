//! Worked calls of the disk in memory, through the trait's bound.

use crate::disk::filled::{read_full, write_full};
use s38_base::Failed;
use s38_disk::{Disk, MemDisk};
use std::test::Fail;

/// Writes each block of a disk, reads it again, and syncs.
fn fill<D: Disk>(disk: &mut D) -> Result<bool, Failed> {
    let mut same = true;
    for at in 0..disk.blocks() {
        same &= read_full(disk, at)? == Some(0);
        let byte = (at % 100) as u8 + 2;
        write_full(disk, at, byte)?;
        same &= read_full(disk, at)? == Some(byte);
    }
    disk.sync()?;
    Ok(same)
}

#[test]
fn a_new_disk_holds_zeros_and_then_what_was_written(rt: HostRuntime) -> Result<(), Fail> {
    let mut disk = MemDisk::new(rt.alloc(), 4, Vec::new(rt.alloc()))?;
    assert!(rt; disk.blocks() == 4 && disk.moment() == 0);
    assert!(rt; fill(&mut disk) == Ok(true));
    assert!(rt; disk.blocks() == 4 && disk.moment() == 5);
    Ok(())
}

/// What a call does to block 0, or that it syncs.
enum Doing {
    Read,
    Write(u8),
    Sync,
}

/// Calls of a disk of which calls 1, 3 and 5 fail: what each answers, and the moment afterwards.
const CALLS: &[(Doing, Result<Option<u8>, Failed>, u64)] = &[
    (Doing::Write(7), Ok(None), 1),
    (Doing::Read, Err(Failed), 1),
    (Doing::Read, Ok(Some(7)), 1),
    (Doing::Write(8), Err(Failed), 2),
    (Doing::Read, Ok(Some(8)), 2),
    (Doing::Sync, Err(Failed), 3),
    (Doing::Sync, Ok(None), 4),
    (Doing::Read, Ok(Some(8)), 4),
];

/// Makes one call.
fn call<D: Disk>(disk: &mut D, doing: &Doing) -> Result<Option<u8>, Failed> {
    match doing {
        Doing::Read => read_full(disk, 0),
        Doing::Write(byte) => {
            write_full(disk, 0, *byte)?;
            Ok(None)
        }
        Doing::Sync => {
            disk.sync()?;
            Ok(None)
        }
    }
}

#[test]
fn a_disk_fails_at_the_listed_calls(rt: HostRuntime) -> Result<(), Fail> {
    let failing = vec![in rt.alloc(); 1, 3, 5]?;
    let mut disk = MemDisk::new(rt.alloc(), 1, failing)?;
    for (doing, answer, moment) in CALLS {
        assert!(rt;
            call(&mut disk, doing) == *answer && disk.moment() == *moment,
            "at {moment}"
        );
    }
    Ok(())
}
