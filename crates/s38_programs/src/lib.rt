//! Programs: made of the deck's templates, called and left, destroyed.
#![tactic(auto)]

mod calls;
pub mod programs;
mod templates;
