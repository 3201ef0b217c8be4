//! What is tested of the whole program and cannot be shown by running it: turns by a list of picks, and sources, sinks and
//! disks that fail. What the program writes of a deck is data, in `rows/` at the top of the repository.
#![tactic(auto)]

#[cfg(test)]
mod answers;
#[cfg(test)]
mod faults;
#[cfg(test)]
mod gates;
#[cfg(test)]
mod listed;
