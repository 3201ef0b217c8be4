//! What a crash at the end of a run leaves is what is durable once the machine has ensured the first objects, one after
//! another. Definitions and proofs alone, but that laws are called.

mod laws;

pub use laws::{a_store_names_objects, what_is_reached_is_closed};
