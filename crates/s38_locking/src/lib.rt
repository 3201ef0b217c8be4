//! The instructions over locks: what each needs, when it fails beside, what it gives and what it changes.
#![tactic(auto)]

mod images;
mod jobs;
pub mod locking;
