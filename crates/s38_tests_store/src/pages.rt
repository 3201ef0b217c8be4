//! What no clause of the pages says: that calls succeed where memory is left, and that memory is taken before anything is
//! written.

#[cfg(test)]
mod stores;
