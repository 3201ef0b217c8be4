//! What a vault is to hold is put there, and only what differs: the differences of some parts of an object are added
//! to a list of changes, and changes are made in puts that the vault takes.
#![tactic(auto)]

mod differing;
mod fault;
mod laws;
mod putting;
mod range;
pub mod reconcile;
mod room;
mod walking;

pub use differing::{add_differences, add_removals};
pub use fault::FlushFault;
pub use laws::{
    differences_are_no_more_than_parts, differences_bring_the_wanted_keys, differences_can_be_put,
    differences_make_what_is_wanted, each_difference_is_needed, few_changes_are_one_put,
    readings_are_one_reading, several_aims_are_met, several_aims_bring_the_wanted_keys,
    several_aims_can_be_put, what_is_there_does_not_differ,
};
pub use putting::put_all;
pub use range::PartRange;
pub use reconcile::{
    add_strangers, add_wanted, changes_make_what_is_wanted, make_place, next_number, put_changes,
};
pub use room::{count_new, has_room};
pub use walking::is_there;

/// What is sent between threads.
fn sends<T: Send + Sync>() {}

/// Each value of this crate may be sent and shared.
pub fn all_may_be_sent() {
    sends::<PartRange>();
    sends::<FlushFault>();
}
