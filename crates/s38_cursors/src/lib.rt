//! The instructions over data spaces and cursors: what each needs, when it fails beside, what it gives and what it
//! changes.
#![tactic(auto)]

mod changes;
mod creation;
pub mod cursors;
mod entries;
mod entry_rules;
mod insertion;
mod reads;
mod seeking;
