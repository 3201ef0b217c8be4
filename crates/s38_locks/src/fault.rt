use s38_base::LockState;
use thiserror::Error;

/// Why a request for a lock was refused.
#[derive(Clone, Copy, PartialEq, Eq, Debug, Error)]
pub enum LockFault {
    /// The least process, and its state, that is incompatible.
    #[error("another process holds an incompatible lock")]
    NotGrantable { holder: u32, state: LockState },
    #[error("the object has as many locks as it may have")]
    Limit,
    #[error("the process holds no such lock")]
    NotHeld,
    #[error("no memory")]
    NoMemory,
}
