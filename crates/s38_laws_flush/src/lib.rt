//! The laws of a flush: what is durable holds after each step and after a crash, and what a step puts fits in its puts.
#![tactic(auto)]

pub mod durable;
pub mod puts;

pub use durable::{
    a_crash_leaves_a_prefix, a_run_begins_kept, one_more_entry_is_durable,
    what_belongs_to_nothing_can_be_taken_away, what_is_durable_can_be_read,
    what_is_durable_is_kept, what_is_forced_can_be_put, what_is_forced_is_read_again,
    what_takes_effect_finds_room,
};
pub use puts::{
    a_commit_puts_few_parts, journal_spaces_become_longer, pages_within_what_was_kept_stay,
    what_a_step_puts_first_fits_in_one_put, what_is_journaled_is_on_disk,
    what_is_kept_of_journal_spaces_is_their_beginning,
};
