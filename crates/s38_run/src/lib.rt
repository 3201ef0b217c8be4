//! Whole runs: the jobs of a deck, whose processes take turns.
#![tactic(auto)]

mod job_state;
mod jobs;
mod laws;
mod outcome;
mod picker;
mod run_end;
mod run_machine;
mod turn;

use job_state::JobState;
pub use jobs::serial;
pub use laws::{one_is_always_ready, the_picks_decide, who_waits_asks_again, who_waits_is_silent};
pub use picker::{ListPicker, NumberPicker, Picker};
pub use run_end::RunEnd;
pub use run_machine::RunMachine;

/// What is sent between threads.
fn sends<T: Send + Sync>() {}

/// How far a job has come may be sent and shared, and with it its process.
pub fn all_may_be_sent() {
    sends::<JobState>();
}
