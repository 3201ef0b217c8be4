//! A disk over a file of the system, where the tests run.

use crate::disk::filled::{read_full, write_full};
use s38_base::Failed;
use s38_disk::{Block, Disk, FileDisk};
use std::fs;
use std::test::Fail;

/// What a disk over a new file does.
fn use_new<D: Disk>(disk: &mut D) -> Result<bool, Failed> {
    let was_empty = read_full(disk, 0)? == Some(0) && read_full(disk, 131_071)? == Some(0);
    write_full(disk, 2, 7)?;
    let is_there = read_full(disk, 2)? == Some(7) && read_full(disk, 1)? == Some(0);
    disk.sync()?;
    Ok(was_empty && is_there && read_full(disk, 3)? == Some(0))
}

#[test]
fn a_file_keeps_what_was_written(rt: HostRuntime) -> Result<(), Fail> {
    let path = "a_file_keeps.store";
    fs::write(&rt, path, "")?;
    fs::remove_file(&rt, path)?;
    let mut disk = FileDisk::attach(&rt, path)?;
    assert!(rt; disk.blocks() == 131_072 && disk.moment() == 0);
    assert!(rt; fs::metadata(&rt, path)?.len() == 0);
    assert!(rt; use_new(&mut disk) == Ok(true) && disk.moment() == 2);
    let mut again = FileDisk::attach(&rt, path)?;
    assert!(rt; read_full(&mut again, 2)? == Some(7) && again.moment() == 0);
    assert!(rt; fs::metadata(&rt, path)?.len() == 3 * 528);
    fs::remove_file(&rt, path)?;
    Ok(())
}

#[test]
fn a_block_past_the_end_of_a_file_is_zeros(rt: HostRuntime) -> Result<(), Fail> {
    let path = "a_short_file.store";
    fs::write(&rt, path, "abc")?;
    let mut disk = FileDisk::attach(&rt, path)?;
    let mut block = Block { bytes: [1; 528] };
    assert!(rt; 0 < disk.blocks());
    disk.read(0, &mut block)?;
    assert!(rt; block.bytes.starts_with(b"abc"));
    assert!(rt; block.bytes.iter().skip(3).all(|byte| *byte == 0));
    fs::remove_file(&rt, path)?;
    Ok(())
}

#[test]
fn a_folder_is_no_disk(rt: HostRuntime) -> Result<(), Fail> {
    assert!(rt; FileDisk::attach(&rt, ".").is_err());
    Ok(())
}
