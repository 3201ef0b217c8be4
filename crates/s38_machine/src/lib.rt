//! The machine: it answers the events of processes one by one, and keeps their history.
#![tactic(auto)]

mod deliveries;
mod effects;
mod log;
mod machine;
mod opening;
mod rows;
mod storing;
mod world_machine;

use log::Log;
pub use machine::{Machine, State};
pub use opening::{general_opening, installed};
use s38_invoke::{Core, Profiles};
use s38_objects::Objects;
use s38_rights_cache::World;
use std::snapshot::Snapshot;
pub use world_machine::WorldMachine;

/// What is sent between threads.
fn sends<T: Send + Sync>() {}

/// Each value of this crate may be sent and shared, and each that a machine holds.
#[tactic(auto, using(crate::proofs::SentLaws::snapshot_send, crate::proofs::SentLaws::snapshot_sync))]
pub fn all_may_be_sent() {
    sends::<Core<Objects, Profiles>>();
    sends::<World<Objects, Profiles>>();
    sends::<Log>();
    sends::<Snapshot<Core<Objects, Profiles>>>();
}

/// A machine may be sent and shared.
pub fn machine_may_be_sent() {
    sends::<Machine>();
}
