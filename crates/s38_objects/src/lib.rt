//! The object map: the machine's objects by number and by name, the numbers that were given.
#![tactic(auto)]

mod body;
mod kept;
mod listing;
mod name_key;
mod names;
mod number;
mod numbered;
mod objects;
mod parts;
mod table;

pub use body::pages;
pub use kept::{enter, pay, pay_more};
pub use name_key::{NameKey, key};
pub use objects::Objects;
pub use table::kind_of;

/// What is sent between threads.
fn sends<T: Send + Sync>() {}

/// Each value of this crate may be sent and shared.
pub fn all_may_be_sent() {
    sends::<Objects>();
}
