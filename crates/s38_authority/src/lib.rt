//! Which authority users have over objects, in a world over any table of objects.
#![tactic(auto)]

mod refusals;
mod rights;
mod users;

pub use refusals::{lacks_special, missing};
pub use rights::{available, available_on, has_rights};
pub use users::is_governed;
