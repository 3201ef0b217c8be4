/// A block of a disk: 528 bytes.
#[derive(Clone, Copy, PartialEq, Eq, Debug)]
pub struct Block {
    pub bytes: [u8; 528],
}

/// A call of a disk that its moment counts.
#[derive(Clone, Copy, PartialEq, Eq, Debug)]
pub enum Call {
    /// A block was written, perhaps in part where the write failed.
    Wrote { at: u32, block: Block },
    /// A sync was made, and it went well or failed.
    Synced { good: bool },
}
