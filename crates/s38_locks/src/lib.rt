//! Locks of objects: which processes hold which, and what they block.
#![tactic(auto)]

mod fault;
mod held;
mod locks;
mod map;
mod refusals;
mod states;
mod table;

pub use fault::LockFault;
pub use states::rank;
pub use table::LockTable;

/// What is sent between threads.
fn sends<T: Send + Sync>() {}

/// Each value of this crate may be sent and shared.
pub fn all_may_be_sent() {
    sends::<LockTable>();
    sends::<LockFault>();
}
