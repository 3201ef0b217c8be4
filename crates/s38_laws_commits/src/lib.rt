//! What a unit committed is in each later restart: what a restart makes of a data space, ordinal by ordinal; what journal
//! spaces tell of the units; and how each step leaves what is kept. Definitions and proofs alone.
#![tactic(auto)]

mod begun;
mod history;
mod keeping;
mod ordinals;
mod uncommitted;

pub use begun::{a_restart_begins_sound, a_store_restarts_to_what_is_durable};
pub use history::{committed_stays, what_is_kept_stays_sound};
pub use keeping::a_step_keeps_an_image_or_takes_it_anew;
pub use ordinals::a_restart_goes_by_ordinals;
pub use uncommitted::{
    what_is_not_committed_is_found_as_it_was, what_no_entry_commits_counts_for_nothing,
};
