//! A disk of blocks, which tells what a crash at each moment may leave, a disk in memory, and a
//! disk over a file.
#![tactic(auto)]

mod block;
mod disk;
mod fault_plan;
mod file_disk;
mod mem_disk;
mod replay;

pub use block::{Block, Call};
pub use disk::Disk;
pub use file_disk::FileDisk;
pub use mem_disk::MemDisk;

/// What is sent between threads.
fn sends<T: Send + Sync>() {}

/// Each value of this crate may be sent and shared.
pub fn all_may_be_sent() {
    sends::<Block>();
    sends::<Call>();
    sends::<MemDisk>();
    sends::<FileDisk>();
}
