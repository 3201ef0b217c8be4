//! Replies suit what was asked: so each process is lawful at each moment of a history, and no run meets a default of the
//! definitions.

mod laws;

pub use laws::replies_suit;
