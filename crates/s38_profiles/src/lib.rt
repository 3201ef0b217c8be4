//! What authority and page limits rest on: the private rows of users, of which each visit is counted, and each user's
//! specials, limit and charge.
#![tactic(auto)]

mod counted;
mod profile;
mod profiles;
mod rows;
mod users;

pub use counted::{CountedRows, Peek};
pub use profiles::Profiles;

/// What is sent between threads.
fn sends<T: Send + Sync>() {}

/// Each value of this crate may be sent and shared.
pub fn all_may_be_sent() {
    sends::<Profiles>();
}
