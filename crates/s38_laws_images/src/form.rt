//! Programs and profiles keep their form in every state of a run, so that they are read again.

mod laws;

pub use laws::{bodies_begin_in_form, bodies_keep_their_form};
