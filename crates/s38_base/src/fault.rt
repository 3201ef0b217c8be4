ghost use Rattle.std.specs.Prelude.{◌≡◌};

use std::alloc::{AllocError, AllocFailed};
use thiserror::Error;

/// Memory was refused, and nothing was changed.
#[derive(Clone, Copy, PartialEq, Eq, Debug, Error)]
#[error("no memory")]
pub struct NoMemory;

/// The outside failed: a source, a sink or a disk. Its count of faults rose.
#[derive(Clone, Copy, PartialEq, Eq, Debug, Error)]
#[error("the outside failed")]
pub struct Failed;

impl From<AllocError> for NoMemory {
    fn from(_: AllocError) -> Self {
        NoMemory
    }
}

impl<T: Drop> From<AllocFailed<T>> for NoMemory {
    fn from(_: AllocFailed<T>) -> Self {
        NoMemory
    }
}
