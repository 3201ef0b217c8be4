use s38_base::ObjNum;

/// What a cursor holds.
#[derive(Clone, Copy, PartialEq, Eq, Debug)]
pub struct Cursor {
    /// The data space that it goes through.
    pub space: ObjNum,
    /// The commit block to which its changes belong, or 0.
    pub block: ObjNum,
    /// The ordinal at which it is, or 0.
    pub position: u32,
}
