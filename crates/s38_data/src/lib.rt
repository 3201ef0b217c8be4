//! The instructions over objects that hold data: what each needs, when it fails beside, what it gives and what it
//! changes, by family.
#![tactic(auto)]

mod dequeuing;
mod enqueuing;
mod index_entries;
pub mod indexes;
pub mod queues;
