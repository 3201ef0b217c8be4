//! Blocks that hold one byte throughout, through the trait's bound.

use s38_base::Failed;
use s38_disk::{Block, Disk};

/// Writes a block that holds one byte throughout. A block that the disk does not have is a fault of the test.
pub fn write_full<D: Disk>(disk: &mut D, at: u32, byte: u8) -> Result<(), Failed> {
    if at >= disk.blocks() {
        return Err(Failed);
    }
    disk.write(at, &Block { bytes: [byte; 528] })
}

/// The byte that a block holds throughout, if there is one.
pub fn read_full<D: Disk>(disk: &mut D, at: u32) -> Result<Option<u8>, Failed> {
    if at >= disk.blocks() {
        return Err(Failed);
    }
    let mut block = Block { bytes: [1; 528] };
    disk.read(at, &mut block)?;
    let byte = block.bytes[0];
    Ok(if block == (Block { bytes: [byte; 528] }) {
        Some(byte)
    } else {
        None
    })
}
