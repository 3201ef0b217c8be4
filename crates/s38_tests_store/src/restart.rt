//! What no clause of the restart says: worked stores and data spaces, and that memory that is there suffices.

#[cfg(test)]
mod data_spaces;
#[cfg(test)]
mod parts;
