//! With what a run may begin: what is true of the objects that a restart gives, and so of every run from there.

mod laws;

pub use laws::{
    a_store_restarts_to_an_opening, an_end_can_be_closed, an_opening_is_in_order,
    an_opening_is_right, an_opening_is_well, the_first_stores_are_openings,
    what_users_pay_can_be_kept,
};
