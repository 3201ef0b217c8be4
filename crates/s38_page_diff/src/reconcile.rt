//! A vault is made to hold some parts, and no others: number by number what differs is found, and then all is put.

mod laws;
mod numbers;
mod placing;
mod putting;
mod walking;

pub use laws::changes_make_what_is_wanted;
pub use numbers::{add_strangers, add_wanted};
pub use placing::make_place;
pub use putting::put_changes;
pub use walking::next_number;
