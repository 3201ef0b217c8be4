//! The program as one call: the words, a deck's source, a disk and a sink come to a status, a history and its marks.
#![tactic(auto)]

mod closing;
mod decide;
mod lines;
mod outcome;
mod prepare;
mod report;
mod run;
mod start;
mod store;
mod stored;
mod tell;
mod templates;
mod top;

pub use outcome::Whole;
pub use report::Report;
pub use run::run_deck;
pub use s38_command::takes_threads;
pub use s38_workers::{Gate, NoGate};
pub use templates::checked_templates;
pub use top::{plain_top, run_top};
