use crate::status::Status;

/// How far a process has come: how many instructions were done, and whether it runs.
#[derive(Clone, Copy)]
pub struct Progress {
    pub done: u32,
    pub status: Status,
}
