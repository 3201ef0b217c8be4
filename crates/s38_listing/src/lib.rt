//! The objects of a store as text: a line for each.
#![tactic(auto)]

mod list;
mod words;

pub use list::list_text;
pub use words::kind_word;
