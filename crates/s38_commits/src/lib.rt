//! Units of commitment: the changes of entries that are committed or taken back together.
#![tactic(auto)]

mod change;
mod fault;
mod place;
mod unit;
mod unit_map;
mod units;

pub use change::UnitChange;
pub use fault::UnitFault;
pub use unit::Unit;
pub use units::Units;

/// What is sent between threads.
fn sends<T: Send + Sync>() {}

/// Each value of this crate may be sent and shared.
pub fn all_may_be_sent() {
    sends::<UnitChange>();
    sends::<Unit>();
    sends::<Units>();
    sends::<UnitFault>();
}
