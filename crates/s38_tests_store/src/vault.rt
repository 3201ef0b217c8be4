//! What no clause of the vaults says: that their calls succeed where memory is left, and worked puts, also of what differs
//! from what a vault is to hold.

#[cfg(test)]
mod forcing;
#[cfg(test)]
mod keyed;
#[cfg(test)]
mod vaults;
