//! Threads that share a counting machine by a turn.

mod counter;
#[cfg(test)]
mod tests;
mod working;

pub use counter::Counter;
pub use working::{Heard, run};
