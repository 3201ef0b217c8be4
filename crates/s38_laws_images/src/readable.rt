//! What a store keeps is read again. Each function says it of what it is given, and computes nothing.

mod bodies;
mod forced;
mod fronts;
mod laws;
mod objects;

pub use bodies::{
    block_is_readable, body_is_readable, cursor_is_readable, data_space_is_readable,
    index_is_readable, journal_is_readable, port_is_readable, profile_is_readable,
    queue_is_readable, space_is_readable,
};
pub use forced::{all_are_readable, forced_are_readable, number_is_readable};
pub use fronts::{front_is_readable, rows_are_readable};
pub use laws::{created_programs_are_read_again, what_is_kept_whole_is_an_image};
pub use objects::object_is_readable;
