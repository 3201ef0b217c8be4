//! The room of a store: the extent of each object that it keeps, what of a step must persist, how many new parts that
//! needs, and the room after the step.
#![tactic(auto)]

mod events;
mod extent;
mod following;
mod growing;
mod growth;
mod laws;
mod logging;
mod row_growth;
mod words;

pub use events::forced;
pub use following::follow;
pub use growing::{new_parts, room_failure};
pub use laws::{what_counts_fits, what_follows_fits, what_is_not_forced_fits};
