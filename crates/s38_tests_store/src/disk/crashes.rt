//! What crashes leave of a disk of four blocks, of which each holds one byte throughout.

use crate::disk::filled::{read_full, write_full};
use s38_base::Failed;
use s38_disk::{Disk, MemDisk};
use std::test::Fail;

/// A run of calls: two writes and a sync, two writes and a sync that fails, a write of a block that is pending, a sync.
/// The moment is 8 afterwards.
fn run<D: Disk>(disk: &mut D) -> Result<(), Failed> {
    write_full(disk, 0, 5)?;
    write_full(disk, 1, 6)?;
    disk.sync()?;
    write_full(disk, 1, 7)?;
    write_full(disk, 2, 8)?;
    match disk.sync() {
        Ok(()) => return Err(Failed),
        Err(Failed) => {}
    }
    write_full(disk, 2, 9)?;
    disk.sync()
}

/// At a moment, with a fill, what the four blocks hold.
const IMAGES: &[(u64, u8, [u8; 4])] = &[
    (0, 0, [0, 0, 0, 0]),
    (0, 79, [0, 0, 0, 0]),
    (1, 0, [0, 0, 0, 0]),
    (1, 1, [5, 0, 0, 0]),
    (1, 79, [79, 0, 0, 0]),
    (2, 0, [0, 0, 0, 0]),
    (2, 79, [79, 79, 0, 0]),
    (3, 0, [5, 6, 0, 0]),
    (3, 79, [5, 6, 0, 0]),
    (4, 0, [5, 6, 0, 0]),
    (4, 79, [5, 79, 0, 0]),
    (5, 1, [5, 7, 8, 0]),
    (5, 79, [5, 79, 79, 0]),
    (6, 0, [5, 6, 0, 0]),
    (6, 79, [5, 79, 79, 0]),
    (7, 0, [5, 6, 0, 0]),
    (7, 1, [5, 7, 9, 0]),
    (7, 79, [5, 79, 79, 0]),
    (8, 0, [5, 7, 9, 0]),
    (8, 79, [5, 7, 9, 0]),
];

#[test]
fn a_crash_leaves_an_image_of_its_moment(rt: HostRuntime) -> Result<(), Fail> {
    for &(moment, fill, blocks) in IMAGES {
        let failing = vec![in rt.alloc(); 5]?;
        let mut disk = MemDisk::new(rt.alloc(), 4, failing)?;
        assert!(rt; run(&mut disk) == Ok(()) && disk.moment() == 8);
        assert!(rt; moment <= disk.moment());
        let mut left = disk.crash(rt.alloc(), moment, fill);
        assert!(rt; left.blocks() == 4 && left.moment() == 0);
        for (at, byte) in blocks.iter().enumerate() {
            assert!(rt;
                read_full(&mut left, at as u32)? == Some(*byte),
                "block {at} at {moment} by {fill}"
            );
        }
    }
    Ok(())
}

#[test]
fn no_call_is_to_fail_after_a_crash(rt: HostRuntime) -> Result<(), Fail> {
    let failing = vec![in rt.alloc(); 1]?;
    let mut disk = MemDisk::new(rt.alloc(), 2, failing)?;
    assert!(rt; write_full(&mut disk, 1, 3) == Ok(()));
    assert!(rt; disk.moment() == 1);
    let mut left = disk.crash(rt.alloc(), 1, 1);
    assert!(rt; write_full(&mut left, 0, 4) == Ok(()) && left.sync() == Ok(()));
    assert!(rt; read_full(&mut left, 0)? == Some(4) && read_full(&mut left, 1)? == Some(3));
    Ok(())
}
