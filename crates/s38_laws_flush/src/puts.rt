//! What is kept of a journal space is the beginning of it, and what a step puts first fits in one put. Definitions and proofs
//! alone, but that laws are called.

mod laws;

pub use laws::{
    a_commit_puts_few_parts, journal_spaces_become_longer, pages_within_what_was_kept_stay,
    what_a_step_puts_first_fits_in_one_put, what_is_journaled_is_on_disk,
    what_is_kept_of_journal_spaces_is_their_beginning,
};
