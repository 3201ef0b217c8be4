//! The generated deck of n, and the total that its run comes to.
#![tactic(auto)]

mod generated;
mod run_total;
mod text;

pub use generated::deck_of;
pub use run_total::{demo_text, total};
