//! The object definition table of a program: its declarations, checked in order, each with what its name
//! means and the bytes with which it begins.
#![tactic(auto)]

mod first;
mod form;
mod image;
mod labels;
mod places;
mod table;

pub use first::blank;
pub use labels::{CodeLines, instruction_count, is_label};
pub use table::{Odt, definition_table, rows};

/// What is sent between threads.
fn sends<T: Send + Sync>() {}

/// The table may be sent and shared.
pub fn all_may_be_sent() {
    sends::<Odt>();
}
