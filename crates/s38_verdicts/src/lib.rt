//! What becomes of an event: address rules, special authority, rights, locks, and the conditions of the instruction; and
//! the same where rights that are needed are found by the place of the process.
#![tactic(auto)]

mod addresses;
mod asking;
mod blocking;
mod by_operand;
mod judged;
mod resolved;
mod rights;
mod rows;
mod verdicts;

pub use asking::ask_verdict;
pub use judged::Judged;
pub use verdicts::verdict_of;
