//! What no clause of the crates of decks says, and no deck shows: limits, printed texts, and that calls succeed.
#![tactic(auto)]

#[cfg(test)]
mod decks;
#[cfg(test)]
mod declarations;
#[cfg(test)]
mod programs;
