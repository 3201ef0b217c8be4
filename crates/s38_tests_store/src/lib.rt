//! Tests of the store: vaults, disks, pages, images, restarts and the room of a store.
#![tactic(auto)]

#[cfg(test)]
mod disk;
#[cfg(test)]
mod image;
#[cfg(test)]
mod pages;
#[cfg(test)]
mod restart;
#[cfg(test)]
mod vault;
