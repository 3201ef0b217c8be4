//! What an instruction asks of the machine, with the values of the variables put in. Where it asks with the operands
//! with which it asked before, they are shared.
#![tactic(auto)]

mod again;
mod anew;
mod receivers;
mod recent;
mod request;
mod scope;

pub use receivers::is_receiver;
pub use recent::Recent;
pub use request::request_of;
pub use scope::Scope;

/// What is sent between threads.
fn sends<T: Send + Sync>() {}

/// What is kept may be sent and shared.
pub fn all_may_be_sent() {
    sends::<Recent>();
}
