ghost use Rattle.std.specs.Prelude.{◌≡◌};
ghost use Rattle.s38_pages.specs.declared.fault.StoreFault.TheVariants as faults;

use s38_base::{Failed, NoMemory};
use std::alloc::{AllocError, AllocFailed};
use thiserror::Error;

/// Why a store was not made or not mounted.
#[derive(Clone, Copy, PartialEq, Eq, Debug, Error)]
pub enum StoreFault {
    /// The disk has too few blocks, so many.
    #[error("{blocks} blocks are too few for a store")]
    TooSmall { blocks: u32 },
    /// There is a store on the disk.
    #[error("there is a store on the disk")]
    AlreadyInstalled,
    /// There is no store on the disk.
    #[error("there is no store on the disk")]
    NotInstalled,
    /// The gate is up, and the log is damaged in this block first.
    #[error("the log is damaged in block {block}")]
    LogDamaged { block: u32 },
    /// Two homes have one key. Of all such pairs this one has the least second home.
    #[error("blocks {first} and {second} have one key")]
    TwoBlocks { first: u32, second: u32 },
    /// The disk failed.
    #[error("the disk failed")]
    Failed,
    /// Memory was refused.
    #[error("no memory")]
    NoMemory,
}

impl From<Failed> for StoreFault {
    ghost from_gives = { λ _ fault. fault ≡ faults.Failed };

    fn from(_: Failed) -> StoreFault {
        StoreFault::Failed
    }
}

impl From<NoMemory> for StoreFault {
    ghost from_gives = { λ _ fault. fault ≡ faults.NoMemory };

    fn from(_: NoMemory) -> StoreFault {
        StoreFault::NoMemory
    }
}

impl From<AllocError> for StoreFault {
    ghost from_gives = { λ _ fault. fault ≡ faults.NoMemory };

    fn from(_: AllocError) -> StoreFault {
        StoreFault::NoMemory
    }
}

impl<T: Drop> From<AllocFailed<T>> for StoreFault {
    ghost from_gives = { λ _ fault. fault ≡ faults.NoMemory };

    fn from(_: AllocFailed<T>) -> StoreFault {
        StoreFault::NoMemory
    }
}
