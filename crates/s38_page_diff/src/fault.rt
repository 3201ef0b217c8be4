ghost use Rattle.std.specs.Prelude.{◌≡◌};
ghost use Rattle.s38_page_diff.specs.declared.fault.FlushFault.TheVariants as faults;

use s38_base::{Failed, NoMemory};
use std::alloc::AllocFailed;
use thiserror::Error;

/// Why changes are not known, or not made. A contract says which of these a call never answers.
#[derive(Clone, Copy, PartialEq, Eq, Debug, Error)]
pub enum FlushFault {
    /// The changes bring more keys than there are free parts. Nothing more was changed.
    #[error("{needed} parts are needed, and {free} are free")]
    Full { needed: u64, free: u32 },
    /// The page that is kept as the header of an object is none. Nothing was changed.
    #[error("object {object} has no header that can be read")]
    BadHeader { object: u64 },
    /// The vault failed, and its count of faults rose.
    #[error("the store failed")]
    Failed,
    /// Memory was refused. Nothing more was changed.
    #[error("no memory")]
    NoMemory,
}

impl From<Failed> for FlushFault {
    ghost from_gives = { λ _ fault. fault ≡ faults.Failed };

    fn from(_: Failed) -> FlushFault {
        FlushFault::Failed
    }
}

impl From<NoMemory> for FlushFault {
    ghost from_gives = { λ _ fault. fault ≡ faults.NoMemory };

    fn from(_: NoMemory) -> FlushFault {
        FlushFault::NoMemory
    }
}

impl<T: Drop> From<AllocFailed<T>> for FlushFault {
    ghost from_gives = { λ _ fault. fault ≡ faults.NoMemory };

    fn from(_: AllocFailed<T>) -> FlushFault {
        FlushFault::NoMemory
    }
}
