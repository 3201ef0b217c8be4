//! The checkpoint: at the end of a run a vault gets each object whole, and the ceiling, and nothing else.
#![tactic(auto)]

mod closing;
mod differences;
mod first;
mod next;
mod parts;

pub use closing::close;
pub use first::first_changes;
pub use parts::{ceiling_parts, whole_parts};
