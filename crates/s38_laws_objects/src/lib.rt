//! What is true of the objects in every state of the machine: a store can keep each of them, and what a step does not
//! have the store keep anew stays as the store has it.
#![tactic(auto)]

mod laws;

pub use laws::{objects_begin_well, objects_stay_well, what_is_not_forced_stays};
