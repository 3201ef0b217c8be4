//! The instructions over journal spaces, ports, commit blocks and units of changes: what each needs, when it fails
//! beside, what it gives and what it changes.
#![tactic(auto)]

mod creation;
pub mod journals;
mod objects;
mod reads;
mod units;
