//! The flush: what one step must persist is put, that is the ceiling, objects whole, the headers and rows of others, and that
//! objects are gone. Only pages that differ are put, and the ceiling before the others.
#![tactic(auto)]

mod differing;
mod grown;
mod numbers;
mod objects;
mod parts;
mod putting;
mod step;
mod turns;

pub use numbers::numbered;
pub use step::force;
