//! Runs on threads: the jobs of a deck, whose processes share one machine by a turn.
#![tactic(auto)]

mod gate;
mod going;
mod hearer;
mod jobs;
mod passes;
mod runner;
mod seats;

pub use gate::{Gate, NoGate};
pub use jobs::run_jobs;
