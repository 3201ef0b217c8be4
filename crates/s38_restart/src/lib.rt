//! Restart: what a store kept is made again. All parts of a store are read, each data space is made from its image and its
//! journal space, and the orphan pages are taken away; the extent of each object as it is kept is told.
#![tactic(auto)]

pub mod catalog;
mod changes;
mod committed;
mod extents;
mod fault;
mod following;
mod journaled;
mod reading;
mod removing;
mod restarting;

pub use catalog::{Store, place_of, store_of};
pub use fault::RestartFault;
pub use journaled::redo;
pub use reading::read_parts;
pub use removing::remove_all;
pub use restarting::{Restarted, restart};
