//! The limits of the machine, and the numbers of its first objects.
use crate::id::ObjNum;

/// The object that holds contexts and profiles.
pub const MACHINE_CONTEXT: ObjNum = ObjNum(1);
/// The greatest number of an object.
pub const LAST_NUMBER: u64 = 1 << 62;
/// How many objects there may be.
pub const MOST_OBJECTS: usize = 65535;
/// By how much the ceiling of numbers rises at once.
pub const CEILING_STEP: u64 = 64;
/// The greatest image of an object's body, in bytes.
pub const BODY_LIMIT: u32 = 1_048_576;
/// The greatest offset of a pointer.
pub const FURTHEST: u32 = 16_777_216;
/// The bytes of a cell of a space.
pub const CELL_BYTES: u32 = 16;
/// The bytes of a page.
pub const PAGE_BYTES: u32 = 512;
/// The longest message of a queue, in bytes.
pub const LONGEST_MESSAGE: u16 = 4096;
/// How many internal calls an invocation may have come to.
pub const MOST_CALLS: usize = 64;
/// How many private rows, and how many locks, an object may have.
pub const MOST_ROWS: usize = 4096;
