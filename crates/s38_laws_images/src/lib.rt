//! The laws of images: with what objects a run may begin, which images a store reads again, and which form bodies keep.
#![tactic(auto)]

pub mod form;
pub mod openings;
pub mod readable;

pub use form::{bodies_begin_in_form, bodies_keep_their_form};
pub use openings::{
    a_store_restarts_to_an_opening, an_end_can_be_closed, an_opening_is_in_order,
    an_opening_is_right, an_opening_is_well, the_first_stores_are_openings,
    what_users_pay_can_be_kept,
};
pub use readable::{
    all_are_readable, block_is_readable, body_is_readable, created_programs_are_read_again,
    cursor_is_readable, data_space_is_readable, forced_are_readable, front_is_readable,
    index_is_readable, journal_is_readable, number_is_readable, object_is_readable,
    port_is_readable, profile_is_readable, queue_is_readable, rows_are_readable, space_is_readable,
    what_is_kept_whole_is_an_image,
};
