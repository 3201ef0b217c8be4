//! A process: it asks one event after another, and goes on by the replies.
#![tactic(auto)]

mod entering;
mod exceptions;
mod held_invocation;
mod homes;
mod invocation;
mod invocations;
mod laws;
mod local_run;
mod made;
mod merging;
mod next;
mod process;
mod progress;
mod receiving;
mod status;
mod unsettled;
mod variables;

pub use laws::a_parameter_is_the_argument;
pub use next::Next;
pub use process::Process;
pub use status::Status;

/// What is sent between threads.
fn sends<T: Send + Sync>() {}

/// Each value of this crate may be sent and shared.
pub fn all_may_be_sent() {
    sends::<Process>();
    sends::<Status>();
}
