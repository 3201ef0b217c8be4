//! The small values that every other crate speaks of: names, identifications, pointers, rights,
//! attributes, exceptions and mnemonics, and lists of them.
#![tactic(auto)]

mod attr;
mod bytes;
mod exception;
pub mod exceptions;
mod fault;
mod fields;
mod held_pointer;
mod id;
pub mod limits;
mod name;
mod op;
mod page;
mod pile;
mod pointer;
mod rights;
mod seq;
mod words;

pub use attr::Attr;
pub use bytes::Bytes;
pub use exception::{Exception, Rule};
pub use fault::{Failed, NoMemory};
pub use fields::{read_u32_at, read_u64_at};
pub use held_pointer::HeldPointer;
pub use id::{Id, Kind, ObjNum, UserNum};
pub use name::{BadName, Name};
pub use op::Op;
pub use page::{Change, Key, Page};
pub use pile::Pile;
pub use pointer::Pointer;
pub use rights::{Rights, Special};
pub use seq::{AttrList, Seq, TryClone, try_clones};
pub use words::{Category, LockState, Relation, Seek};

/// What is sent between threads.
fn sends<T: Send + Sync>() {}

/// Each value of this crate may be sent and shared.
pub fn all_may_be_sent() {
    sends::<Name>();
    sends::<Id>();
    sends::<Attr>();
    sends::<Pointer>();
    sends::<HeldPointer>();
    sends::<Exception>();
    sends::<Bytes>();
    sends::<AttrList>();
    sends::<Pile<usize>>();
    sends::<Change>();
    sends::<NoMemory>();
    sends::<Failed>();
}
