//! Bytes as strings: copied, joined, translated, in hexadecimal, bit by bit, compared. No call takes
//! memory.
#![tactic(auto)]

mod bitwise;
mod characters;
mod copies;
mod hex;
mod order;
mod translate;

pub use bitwise::bits;
pub use characters::ebcdic;
pub use copies::{cat, copy_left, copy_left_pad, copy_right};
pub use hex::{Conversion, from_hex, to_hex};
pub use order::compare;
pub use translate::xlate;
