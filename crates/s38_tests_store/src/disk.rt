//! What no clause of the disks says: that their calls succeed where memory is left, and worked crashes.

#[cfg(test)]
mod crashes;
#[cfg(test)]
mod disks;
#[cfg(test)]
mod files;
#[cfg(test)]
mod filled;
