//! The numbers of exceptions.

/// A piece of bytes leaves its space, or an offset the range of offsets.
pub const SPACE_ADDRESSING: u16 = 0x0601;
/// A cell does not begin at a multiple of 16.
pub const BOUNDARY_ALIGNMENT: u16 = 0x0602;
/// Number or attributes of the arguments are not those of the parameters.
pub const ARGUMENT_MISMATCH: u16 = 0x0802;
/// Needed rights are not available.
pub const UNAUTHORIZED: u16 = 0x0A01;
/// A needed special authority is not there.
pub const SPECIAL_REQUIRED: u16 = 0x0A02;
/// The owner alone may do it.
pub const OWNERSHIP_REQUIRED: u16 = 0x0A03;
/// A byte is no hexadecimal character.
pub const CONVERSION: u16 = 0x0C01;
/// The bytes of a number have no value.
pub const DECIMAL_DATA: u16 = 0x0C02;
/// The receiver doesn't hold the result.
pub const SIZE: u16 = 0x0C0A;
/// The divisor is zero.
pub const ZERO_DIVIDE: u16 = 0x0C0B;
/// Another object of the context has the identification.
pub const DUPLICATE_IDENTIFICATION: u16 = 0x0E01;
/// The index has the entry already.
pub const DUPLICATE_ENTRY: u16 = 0x0E02;
/// Another process holds a lock that blocks the use.
pub const OBJECT_LOCKED: u16 = 0x1A01;
/// The lock can't be granted beside another one.
pub const LOCK_NOT_GRANTABLE: u16 = 0x1A02;
/// The process holds no such lock.
pub const LOCK_NOT_HELD: u16 = 0x1A03;
/// Every other process of the stage waits or has ended.
pub const ALL_WAIT: u16 = 0x1A04;
/// The entry was changed in a unit that is not committed.
pub const ENTRY_HELD: u16 = 0x1A05;
/// The unit belongs to another process.
pub const UNIT_OF_ANOTHER: u16 = 0x1A06;
/// A limit would be passed.
pub const LIMIT_EXCEEDED: u16 = 0x1C03;
/// The owner's pages would pass its limit.
pub const PAGES_EXCEEDED: u16 = 0x1C04;
/// The store has not as many free parts as are needed.
pub const STORE_FULL: u16 = 0x1C05;
/// No object has the identification.
pub const OBJECT_NOT_FOUND: u16 = 0x2201;
/// The object of the pointer is there no more.
pub const OBJECT_DESTROYED: u16 = 0x2202;
/// The object is still used by another one.
pub const OBJECT_IN_USE: u16 = 0x2204;
/// The object is not on disk.
pub const OBJECT_NOT_ON_DISK: u16 = 0x2205;
/// A pointer operand has no pointer.
pub const POINTER_MISSING: u16 = 0x2401;
/// The pointer is of another kind than the instruction uses.
pub const POINTER_TYPE_INVALID: u16 = 0x2402;
/// The object is of another kind than the instruction uses.
pub const OBJECT_TYPE_INVALID: u16 = 0x2403;
/// A length, or a relation, is not the object's.
pub const LENGTH_INVALID: u16 = 0x2405;
/// No message meets the request.
pub const NO_MESSAGE: u16 = 0x2601;
/// No entry of the index meets the request.
pub const NO_INDEX_ENTRY: u16 = 0x2602;
/// There is no such process.
pub const PROCESS_NOT_FOUND: u16 = 0x2803;
/// The deck has no template of the name.
pub const TEMPLATE_MISSING: u16 = 0x2A01;
/// An attribute leaves its bounds, or does not hold the first value.
pub const DECLARATION_INVALID: u16 = 0x2A02;
/// A name is declared twice, or what a declaration names is not there.
pub const NAME_INVALID: u16 = 0x2A03;
/// Number or class of the operands is not the row's.
pub const OPERANDS_INVALID: u16 = 0x2A04;
/// Attributes of the operands are not the row's.
pub const ATTRIBUTES_INVALID: u16 = 0x2A05;
/// More than 38 digits are needed.
pub const DIGITS_EXCEEDED: u16 = 0x2A06;
/// An operand's name is not declared.
pub const NAME_MISSING: u16 = 0x2A07;
/// The label is missing.
pub const LABEL_MISSING: u16 = 0x2A08;
/// There is no such entry.
pub const NO_ENTRY: u16 = 0x5001;
/// There is no entry at the position.
pub const POSITION_EMPTY: u16 = 0x5002;
/// The data space is not journaled to the block's port.
pub const NOT_JOURNALED: u16 = 0x5003;
