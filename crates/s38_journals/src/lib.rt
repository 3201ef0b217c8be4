//! Journals: the entries of a journal space, numbered from 1 on by their sequence.
#![tactic(auto)]

mod entry;
mod fault;
mod head;
mod journal;
mod pieces;
mod read;

pub use entry::{EntryKind, JournalEntry};
pub use fault::JournalFault;
pub use journal::Journal;

/// What is sent between threads.
fn sends<T: Send + Sync>() {}

/// Each value of this crate may be sent and shared.
pub fn all_may_be_sent() {
    sends::<Journal>();
    sends::<EntryKind>();
    sends::<JournalEntry<'static>>();
    sends::<JournalFault>();
}
