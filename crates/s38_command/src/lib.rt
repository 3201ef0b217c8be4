//! The words of a command line: what they say as a simple command reads them, and which command they are.
#![tactic(auto)]

mod command;
mod said;
mod turns;

pub use command::{Command, command_on, looks_at_store, takes_threads};
pub use said::{Said, said_of};
pub use turns::Turns;
