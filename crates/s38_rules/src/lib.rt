//! The rules of the machine, as definitions: its state, users and rights, operands, each family of instructions, the
//! verdict, the effect, steps and legal histories. The data of the state are here too, so that the definitions
//! and the code speak of one type.
#![tactic(auto)]

mod block;
mod creating;
mod cursor;
mod data_body;
mod listed;
mod need;
mod object;
mod part;
mod port;
mod process;
mod rows;
mod stack;
mod table;
mod user_maps;
mod verdict;

pub use block::Block;
pub use creating::Creating;
pub use cursor::Cursor;
pub use data_body::DataBody;
pub use listed::Listed;
pub use need::{Claim, Located, Named, Need, PointerKind, Sought};
pub use object::{Body, Object};
pub use part::BodyPart;
pub use port::Port;
pub use process::{ProcessEntry, Started};
pub use rows::{PrivateRow, RowList};
pub use stack::Stack;
pub use table::{Header, Table, TableRows};
pub use user_maps::UserMaps;
pub use verdict::Verdict;

/// What is sent between threads.
fn sends<T: Send + Sync>() {}

/// Each value of this crate may be sent and shared.
pub fn all_may_be_sent() {
    sends::<Object>();
    sends::<Need>();
    sends::<ProcessEntry>();
    sends::<Verdict>();
}
