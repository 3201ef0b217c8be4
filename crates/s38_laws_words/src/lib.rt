//! What the words of decks name: the tables by which words become numbers, and those by which numbers get their meanings,
//! are tied word by word. The program calls nothing of it.
#![tactic(auto)]

mod laws;

pub use laws::{each_word_is_what_it_names, listed_states_are_the_states};
