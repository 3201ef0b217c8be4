//! The instructions over contexts, profiles, authority, pointers to objects, and spaces: what each needs, when it fails
//! beside, what it gives and what it changes, by family.
#![tactic(auto)]

mod addressability;
mod authority_reads;
pub mod contexts;
pub mod grants;
mod images;
mod listing;
pub mod profiles;
pub mod resolving;
mod space_pointers;
pub mod spaces;
