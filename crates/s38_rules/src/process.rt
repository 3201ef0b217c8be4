use crate::stack::Stack;
use s38_base::{ObjNum, Seq, UserNum};
use s38_code::Job;

/// What the machine knows of a process since its start.
#[derive(Drop)]
pub struct Started {
    pub user: UserNum,
    /// The contexts of its job's list, in order.
    pub contexts: Seq<ObjNum>,
    /// The programs of its invocations, 0 for the job's own template.
    pub stack: Stack,
}

/// A job, and how far its process has come.
#[derive(Drop)]
pub struct ProcessEntry {
    pub job: Job,
    pub started: Option<Started>,
    pub ended: bool,
}
