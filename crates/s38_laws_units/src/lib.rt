//! What is true of the units of changes in every state of the machine: each can be committed and taken back whole.
#![tactic(auto)]

mod laws;

pub use laws::{
    changes_are_put_back, changes_are_written, ends_are_written, units_begin_right,
    units_stay_right,
};
