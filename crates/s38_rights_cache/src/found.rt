use s38_base::{ObjNum, Rights};

/// Rights that were found on an object, without those that a pointer carried, with the count of authority changes and the
/// number of the last frame in use at that time.
#[derive(Clone, Copy, PartialEq, Eq, Debug)]
pub struct Verified {
    pub object: ObjNum,
    pub rights: Rights,
    pub authority: u64,
    pub frame: u64,
}

/// How many rows were visited to find rights.
#[derive(Clone, Copy, PartialEq, Eq, Debug)]
pub struct Visits {
    /// It stays at its last value.
    pub count: u64,
    /// Whether the count of the profiles has come to its end, so that further visits are not seen.
    pub spent: bool,
}
