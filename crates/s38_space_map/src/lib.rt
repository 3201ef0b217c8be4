//! The room of a store as data: how many parts it has for objects, and how many pages it has of each object that it keeps;
//! and what of a step must persist.
#![tactic(auto)]

mod extent;
mod extents;
mod forcing;
mod room;

pub use extent::{Extent, pages_begun, pages_of_rows};
pub use forcing::{Forcing, Forcings};
pub use room::Room;

/// What is sent between threads.
fn sends<T: Send + Sync>() {}

/// Each value of this crate may be sent and shared.
pub fn all_may_be_sent() {
    sends::<Extent>();
    sends::<Forcings>();
    sends::<Room>();
}
