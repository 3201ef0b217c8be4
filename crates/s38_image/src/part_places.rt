//! Where things lie among the parts of a store: the header, the rows and the body of an object, and the ceiling of numbers.

/// The part of an object's header.
pub const HEADER_PART: u32 = 0;
/// The first part of an object's rows.
pub const ROWS_PART: u32 = 1;
/// The first part of an object's body.
pub const BODY_PART: u32 = 128;
/// How many bytes a row has.
pub const ROW_BYTES: u32 = 9;
/// How many cells a page holds.
pub const PAGE_CELLS: usize = 32;
/// The number under which the ceiling of numbers is kept, from part 0 on.
pub const CEILING_KEY: u64 = u64::MAX;
/// How many parts the ceiling of numbers has.
pub const CEILING_PARTS: u32 = 1;
/// The mark of the ceiling's page.
pub const CEILING_MARK: u32 = 0x5333_3843;
