//! Who can come to a right: where no way to it is open for the users that act, none opens, and the right is never used.
#![tactic(auto)]

mod laws;

pub use laws::{effects_are_plain, no_way_opens, no_way_opens_later};
