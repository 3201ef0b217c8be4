//! What an operand is, over the objects that are there, and what families of instructions share: readings of
//! computations, values, needs.
#![tactic(auto)]

mod act;
mod cells;
mod computing;
mod entries;
mod failures;
mod hex;
mod keys;
mod needs;
mod numbers;
mod operands;
mod queues;
mod reads;
mod storage;
mod values;

pub use act::Act;
pub use cells::{copy_cells, resize_cells, set_cells, write_cells};
pub use computing::{
    AtOperands, computing_fails, computing_gives, computing_needs, receiver_at, shift_at,
};
pub use entries::have_values_at;
pub use failures::fails;
pub use keys::{Question, ask_at, relation_at};
pub use needs::{Needs, claimed, governed, need, on_implied, on_object};
pub use numbers::{count_at, number_at, ordinal_at};
pub use operands::{
    attr_at, id_at, is_given, is_in_space, is_list, is_machine, place, rights_at, room_at,
    scalar_attr, whole_at, word_at,
};
pub use queues::{QueueFacts, facts_of_queue, queue_facts};
pub use reads::{bytes_at, lent_at, piece_at, pointer_at, size_at, source_cells, target};
pub use storage::{first_pointer, is_aligned, is_within};
pub use values::{count_image, fitted};

/// What is sent between threads.
fn sends<T: Send + Sync>() {}

/// Each value of this crate may be sent and shared.
pub fn all_may_be_sent() {
    sends::<Needs>();
    sends::<QueueFacts>();
}
