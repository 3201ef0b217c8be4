//! Computations: numbers, strings, comparisons and space pointers. What an instruction gives once its sources are
//! read, wherever they lie: among the variables of a process, or in spaces.
#![tactic(auto)]

mod comparisons;
mod computation;
mod copies;
mod given;
mod numbers;
mod piece;
mod pointers;
mod sources;
mod strings;

pub use comparisons::{is_branch, short_test, test_given};
pub use computation::{compute, computes_number, computes_string, failure, is_computation, value};
pub use copies::{copies_left, copies_right, shift_of};
pub use given::Given;
pub use numbers::{number_given, short_number};
pub use piece::Piece;
pub use pointers::pointer_given;
pub use sources::Sources;
pub use strings::{are_hex, write_string};

/// What is sent between threads.
fn sends<T: Send + Sync>() {}

/// Each value of this crate may be sent and shared.
pub fn all_may_be_sent() {
    sends::<Given>();
    sends::<Piece<'static>>();
}
