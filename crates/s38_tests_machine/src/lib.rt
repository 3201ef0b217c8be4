//! What no clause of the machine says and no deck shows: that a job of a later stage waits, and how many rows are visited.
#![tactic(auto)]

#[cfg(test)]
mod puts;
