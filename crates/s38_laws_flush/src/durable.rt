//! What is durable goes with the state of a machine at every moment of a run: as the run begins, and after each step;
//! and what a crash leaves of a run. Definitions and proofs alone, but that laws are called.

mod laws;
mod readable;

pub use laws::{
    a_crash_leaves_a_prefix, a_run_begins_kept, one_more_entry_is_durable,
    what_belongs_to_nothing_can_be_taken_away, what_is_durable_can_be_read,
    what_is_durable_is_kept, what_is_forced_can_be_put, what_takes_effect_finds_room,
};
pub use readable::what_is_forced_is_read_again;
