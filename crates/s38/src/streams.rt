//! Standard streams that were closed before the program began.

use std::fs::{File, OpenOptions};

/// What is in the places of standard streams that were closed, as long as it is held.
#[derive(Drop)]
pub struct Places {
    _first: Option<File>,
    _second: Option<File>,
    _third: Option<File>,
}

/// A folder, of which nothing can be read, and into which nothing can be written.
fn folder(rt: &HostRuntime) -> Option<File> {
    match OpenOptions::new().read(true).open(rt, "/") {
        Ok(folder) => Some(folder),
        Err(_) => None,
    }
}

/// Takes the places of the standard streams that were closed. The system gives a file the first place that is free: else the
/// store would be where the log is written or the deck is read. What is read or written in such a place fails.
pub fn take_places(rt: &HostRuntime) -> Places {
    Places {
        _first: folder(rt),
        _second: folder(rt),
        _third: folder(rt),
    }
}
