//! What is true of the machine in every state of a run: a process that has ended leaves nothing, objects, users and locks
//! are in order, and confinement holds from any moment.
#![tactic(auto)]

mod laws;

pub use laws::{
    ended_processes_leave_nothing, no_way_opens_from_any_moment, objects_stay_in_order,
    whole_runs_leave_nothing,
};
