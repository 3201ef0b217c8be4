//! The laws of a checkpoint: what it reaches is durable once the first objects are ensured, and each object needs one put.
#![tactic(auto)]

pub mod prefix;
pub mod puts;

pub use prefix::{a_store_names_objects, what_is_reached_is_closed};
pub use puts::{each_object_is_closed_by_one_put, headers_can_be_read};
