//! Whose programs a process runs: the frames that the machine keeps of a process are those of its invocations, so the
//! right owners act.

mod laws;

pub use laws::{the_right_owner_acts, what_is_created_is_checked};
