//! The core of the machine's world, over any table of objects: the processes, who acts in them, their invocations, their starts
//! and ends, and what is kept of users.
#![tactic(auto)]

mod core_state;
mod invocations;
mod kept;
mod processes;
mod starts;
mod users;

pub use core_state::Core;
pub use processes::{entry_in, stack_in, started_in, user_in};
pub use s38_profiles::Profiles;
pub use starts::{end, start, start_failure};
pub use users::{Acting, adoption_of, frame_header};
