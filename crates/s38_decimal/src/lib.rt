//! Whole numbers with a scale: packed, zoned and binary scalars are read and written, added, multiplied,
//! divided, scaled and compared. Results are exact fractions, cut or rounded at the receiver. No call
//! takes memory.
#![tactic(auto)]

mod common;
mod dec;
mod digits;
mod laws;
mod order;
mod packed;
mod products;
mod quotients;
mod read;
mod remainders;
mod results;
mod short;
mod signed;
mod sums;
mod tens;
mod units;
mod whole;
mod write;

pub use dec::{Dec, DecimalFault, Target};
pub use digits::{has_one_fraction, is_short, need};
pub use laws::written_is_read;
pub use order::compare;
pub use products::{mult, neg, scale};
pub use quotients::div;
pub use read::{read_scalar, read_short};
pub use remainders::rem;
pub use short::{add_short, compare_short};
pub use sums::{add, sub};
pub use tens::ten;
pub use whole::whole_part;
pub use write::{write_fitting, write_scalar};
