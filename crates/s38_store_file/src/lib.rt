//! A store of objects on a disk: it is made, it is opened for a run, and what the run leaves is kept.
#![tactic(auto)]

mod charges;
mod fault;
mod installing;
mod keeping;
mod laws;
mod opening;

pub use fault::{BadStore, StoreRefusal};
pub use installing::install;
pub use keeping::{Kept, checkpoint};
pub use laws::{
    a_store_that_restarts_is_opened, parts_that_belong_to_nothing_may_go, what_is_kept_stays,
    where_each_fits_none_is_full,
};
pub use opening::{OpenStore, open};
