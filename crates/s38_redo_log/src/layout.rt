use s38_disk::Block;

/// The first block that is a home.
pub const FIRST_HOME: u32 = 2306;
/// How many blocks a store uses at most.
pub const MOST_BLOCKS: u32 = 131_072;
/// How many entries a log has at most.
pub const MOST_ENTRIES: u32 = 2286;

/// Where things lie in a store: the label in block 0, the gate in block 1, the log from block 2 on, and the homes from
/// `first` on up to `size`, but for `hole`. A log has at most so many entries.
#[derive(Clone, Copy, PartialEq, Eq, Debug)]
pub struct Layout {
    pub first: u32,
    pub hole: u32,
    pub size: u32,
    pub most: u32,
}

/// A block that is to be written to a home.
#[derive(Clone, Copy)]
pub struct Slot {
    pub home: u32,
    pub block: Block,
}
