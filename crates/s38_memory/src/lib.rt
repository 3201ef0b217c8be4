//! Tagged storage: a list of cells, each sixteen bytes or one pointer.
#![tactic(auto)]

mod cell;
mod fault;
mod image;
mod storage;
mod tagged;

pub use cell::Cell;
pub use fault::MemoryFault;
pub use image::{decode, has_image, image_of};
pub use tagged::Tagged;

/// What is sent between threads.
fn sends<T: Send + Sync>() {}

/// Each value of this crate may be sent and shared.
pub fn all_may_be_sent() {
    sends::<Tagged>();
    sends::<Cell>();
    sends::<MemoryFault>();
}
