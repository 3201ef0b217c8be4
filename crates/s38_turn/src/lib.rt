//! The turn: a machine that threads share, one event at a time, first come, first served.
#![tactic(auto)]

mod acting;
mod item;
mod listener;
mod parting;
mod rule;
mod seat;
mod tickets;
mod turn;
mod view;

pub use item::Item;
pub use listener::Listener;
use s38_code::Stepper;
pub use seat::Seat;
pub use turn::Turn;

/// What is sent between threads.
fn sends<T: Send>() {}

/// What threads share.
fn shares<T: Sync>() {}

/// A turn may be sent and shared, and a seat may be sent, where the machine may be sent.
pub fn all_may_be_sent<M: Stepper + Drop + Send>() {
    sends::<Turn<M>>();
    shares::<Turn<M>>();
    sends::<Seat<M>>();
}
