//! The text of a deck: the grammar as a relation, and the reader that is exact against it.
#![tactic(auto)]

mod code;
mod cut;
mod fault;
mod forms;
mod job_line;
mod line;
mod place;
mod places;
mod print;
mod read;
mod reader;
mod said;
mod seen;
mod step;

pub use fault::DeckFault;
pub use places::{each_job_has_its_template, template_name, template_places};
pub use print::{a_printed_deck_is_read, print_deck, print_template};
pub use read::{one_deck, read_deck};
pub use s38_code::Deck;

/// What is sent between threads.
fn sends<T: Send + Sync>() {}

/// Each value of this crate may be sent and shared.
pub fn all_may_be_sent() {
    sends::<DeckFault>();
}
