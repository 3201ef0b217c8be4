//! The machine's world: its core, and beside it what verified authorities keep.
#![tactic(auto)]

mod checks;
mod following;
mod found;
mod laws;
mod numbers;
mod rows;
mod world;

pub use checks::{Missing, check, verified};
pub use found::{Verified, Visits};
pub use laws::{checks_leave_the_last, counts_follow, places_stay_right};
pub use world::World;
