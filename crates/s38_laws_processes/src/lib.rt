//! The laws of processes: the owners of the programs in which a process is act, and each reply suits what was asked.
#![tactic(auto)]

pub mod owners;
pub mod replies;

pub use owners::{the_right_owner_acts, what_is_created_is_checked};
pub use replies::replies_suit;
