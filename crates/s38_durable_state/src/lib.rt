//! What is durable of a machine, and the laws of it: it follows the machine's objects, the room of a store counts it, a step
//! leaves what it does not force, and puts what it forces. Definitions and proofs alone.
#![tactic(auto)]

mod laws;

pub use laws::{
    a_step_puts_what_is_durable, room_counts_what_is_durable, what_is_durable_follows,
    what_is_not_forced_stays_durable,
};
