//! Units of changes: which entries they hold, what a change needs of the journal, changes logged, units committed and
//! taken back, and the end of a process.
#![tactic(auto)]

mod ends;
mod journaling;
mod logging;
mod rules;
mod units;

pub use ends::end;
pub use journaling::{journal_for, journal_for_block, journal_of_port};
pub use logging::{log_change, log_in};
pub use rules::{block_rules, held_rule, journal_rule, read_rule, unit_rule};
pub use units::{commit, decommit};
