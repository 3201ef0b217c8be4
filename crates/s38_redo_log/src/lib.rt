//! The blocks of a store: how they are coded, what content they hold, and how a redo log with a gate brings blocks into their
//! homes, all of them or none whenever a crash comes.
#![tactic(auto)]

mod coding;
mod gated;
mod layout;
mod log;
mod phases;

pub use coding::{
    block_of, is_label, is_up, key_of, label_block, page_of, up_block, word_of, zero_block,
};
pub use gated::{commit, redo};
pub use layout::{FIRST_HOME, Layout, MOST_BLOCKS, MOST_ENTRIES, Slot};
pub use log::write_log;
pub use phases::{write_gate, write_homes};
