//! Queues: messages in the order of their arrival.
#![tactic(auto)]

mod kept;
mod key;
mod keyed;
mod message;
mod messages;
mod place;
mod queue;

pub use message::{Message, Order};
pub use messages::Messages;
pub use queue::{Queue, QueueFault};

/// What is sent between threads.
fn sends<T: Send + Sync>() {}

/// Each value of this crate may be sent and shared.
pub fn all_may_be_sent() {
    sends::<Queue>();
    sends::<Message>();
    sends::<QueueFault>();
}
