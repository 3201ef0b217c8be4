//! Independent indexes: byte strings in strictly rising order.
#![tactic(auto)]

mod entries;
mod fault;
mod index;
mod leaf;
mod leaves;
mod lookup;
mod walk;

pub use fault::IndexFault;
pub use index::Index;
pub use walk::Entries;

/// What is sent between threads.
fn sends<T: Send + Sync>() {}

/// Each value of this crate may be sent and shared.
pub fn all_may_be_sent() {
    sends::<Index>();
    sends::<IndexFault>();
}
