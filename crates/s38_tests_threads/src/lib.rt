//! Tests of threads: turns, and runs by workers.
#![tactic(auto)]

pub mod turn;
#[cfg(test)]
mod workers;

pub use turn::{Counter, Heard, run};
