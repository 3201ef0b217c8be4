//! A machine over a vault: what a step forces is kept before the next step, so that a crash leaves what is durable
//! after the entries that were answered by then.
#![tactic(auto)]

mod ending;
mod keeping;
mod laws;
mod machine;
mod running;
mod sharing;

pub use ending::Ending;
pub use machine::{StoredEnd, StoredMachine};
use s38_vault::Vault;

/// What is sent between threads.
fn sends<T: Send>() {}

/// A machine may be sent where its vault may.
pub fn machine_may_be_sent<V: Vault + Drop + Send>() {
    sends::<StoredMachine<V>>();
}
