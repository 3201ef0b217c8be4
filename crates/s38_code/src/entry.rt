use crate::event::Event;
use crate::reply::Reply;

/// An entry of the history: which process asked what, and what it was answered.
#[derive(Drop, Debug)]
pub struct Entry {
    /// The job's number, from 1 on.
    pub process: u32,
    /// How many entries of this process come before it.
    pub seq: u64,
    pub event: Event,
    pub reply: Reply,
}
