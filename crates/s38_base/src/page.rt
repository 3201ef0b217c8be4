/// A page of a store: 512 bytes, and a tag for each of its 32 cells.
#[derive(Clone, Copy, PartialEq, Eq, Debug)]
pub struct Page {
    pub bytes: [u8; 512],
    pub tags: u32,
}

/// Which page it is: an object's number, and the number of the part.
#[derive(Clone, Copy, PartialEq, Eq, PartialOrd, Ord, Debug)]
pub struct Key {
    pub object: u64,
    pub part: u32,
}

/// A page that is put, or taken away.
#[derive(Clone, Copy, PartialEq, Eq, Debug)]
pub struct Change {
    pub key: Key,
    pub page: Option<Page>,
}
