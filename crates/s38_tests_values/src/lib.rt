//! What no clause of the leaf crates says and no deck shows: the adapters of readers and writers, values that are made again,
//! texts that no run writes, and that calls succeed.
#![tactic(auto)]

#[cfg(test)]
mod adapters;
#[cfg(test)]
mod decimals;
#[cfg(test)]
mod faults;
#[cfg(test)]
mod journals;
#[cfg(test)]
mod logs;
#[cfg(test)]
mod sources;
#[cfg(test)]
mod values;
