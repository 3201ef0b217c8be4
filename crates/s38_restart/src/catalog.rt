//! The objects of a store, by number: their headers, what they hold, and the first fault.

mod ceiling;
mod group;
mod groups;
mod headers;
mod numbers;
mod outcomes;
mod reading;
mod repeats;
mod store;
mod strays;

pub use numbers::place_of;
pub use store::{Store, store_of};
