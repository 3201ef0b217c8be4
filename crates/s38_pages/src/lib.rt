//! A vault over a disk: pages in homes, and a gated log.
#![tactic(auto)]

mod fault;
mod formatting;
mod log_reading;
mod marks;
mod mounting;
mod page_vault;
mod plan;
mod reading;
mod scan;
mod vaulted;
mod watched;
mod writing;

pub use fault::StoreFault;
pub use page_vault::PageVault;
use s38_disk::MemDisk;
pub use watched::WatchedVault;

/// What is sent between threads.
fn sends<T: Send + Sync>() {}

/// Each value of this crate may be sent and shared, over a disk that may be.
pub fn all_may_be_sent() {
    sends::<PageVault<MemDisk>>();
    sends::<WatchedVault<MemDisk>>();
    sends::<StoreFault>();
}
