//! What instructions change of the objects, and with them what is kept of users: objects made and destroyed, how they
//! are owned and who may use them, their names and places, what is written into spaces.
#![tactic(auto)]

mod charges;
mod creation;
mod destruction;
mod naming;
mod spaces;
mod standing;
mod users;

pub use charges::{is_owner, owner_pays, taker_rule};
pub use creation::{
    creation_changes, creation_fails, creation_gives, creation_needs, in_context, machine_needs,
    of_machine,
};
pub use destruction::{destroy, destruction_needs};
pub use naming::{home, is_taken_beside};
pub use spaces::{pages_for_length, put_cells, put_value, resize};
pub use standing::{give_to, move_to, rename_to, set_profile, set_public, set_row};
