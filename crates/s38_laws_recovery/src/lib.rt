//! What is durable at each moment of a run can be restarted: what a restart asks of it, that a content that has its
//! pages is restarted to it without a fault, and that it stays so after each step. Definitions and proofs alone, but
//! that laws are called.
#![tactic(auto)]

mod laws;

pub use laws::{
    a_crash_leaves_what_restarts, what_a_run_leaves_restarts, what_can_restart_restarts,
    what_is_closed_can_be_read, what_is_durable_can_restart,
};
