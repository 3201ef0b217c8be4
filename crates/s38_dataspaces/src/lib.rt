//! Data spaces: entries of one length, numbered by their ordinals.
#![tactic(auto)]

mod fault;
mod fields;
mod records;
mod seek;
mod slots;
mod space;
mod values;

pub use fault::EntryFault;
pub use fields::are_fields;
pub use space::DataSpace;
pub use values::{have_values, is_valued};

/// What is sent between threads.
fn sends<T: Send + Sync>() {}

/// Each value of this crate may be sent and shared.
pub fn all_may_be_sent() {
    sends::<DataSpace>();
    sends::<EntryFault>();
}
