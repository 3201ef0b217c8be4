//! What lies inside a space: every operand that a permitted instruction names there, and all that it puts there.
#![tactic(auto)]

mod laws;

pub use laws::{
    cells_lie_inside, changes_keep_spaces, checked_instructions_suit, operands_lie_inside,
    values_are_read_back, values_lie_inside,
};
