//! Local instructions: computations, branches and returns among the variables of one invocation. Nothing else is
//! read or changed.
#![tactic(auto)]

mod branches;
mod control;
mod dispatch;
mod frame;
mod local_end;
mod locality;
mod numbers;
mod operands;
mod overlap;
mod receivers;
mod short;
mod variables;
mod way;
mod written;

pub use control::return_from;
pub use dispatch::run_local;
pub use frame::Frame;
pub use local_end::LocalEnd;
pub use locality::{declares_space, is_local, is_local_by};
pub use operands::{form_in, place_of, value_at, value_bytes, value_of_item, value_pointer};

/// What is sent between threads.
fn sends<T: Send + Sync>() {}

/// Each value of this crate may be sent and shared.
pub fn all_may_be_sent() {
    sends::<Frame>();
    sends::<LocalEnd>();
}
