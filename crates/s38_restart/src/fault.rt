ghost use Rattle.std.specs.Prelude.{◌≡◌};
ghost use Rattle.s38_restart.specs.Faults.{of_image};
ghost use Rattle.s38_restart.specs.declared.fault.RestartFault.TheVariants as faults;

use s38_base::{Failed, NoMemory};
use s38_image::ImageFault;
use std::alloc::{AllocError, AllocFailed};
use thiserror::Error;

/// Why a store is not restarted.
#[derive(Clone, Copy, PartialEq, Eq, Debug, Error)]
pub enum RestartFault {
    /// The vault failed.
    #[error("the store could not be read")]
    Failed,
    /// Memory was refused.
    #[error("no memory")]
    NoMemory,
    /// The first part at fault: 0 the header, else a missing page, 1 the rows, 128 the body.
    #[error("{object} {part}")]
    BadImage { object: u64, part: u32 },
}

impl From<Failed> for RestartFault {
    ghost from_gives = { λ _ fault. fault ≡ faults.Failed };

    fn from(_: Failed) -> RestartFault {
        RestartFault::Failed
    }
}

impl From<AllocError> for RestartFault {
    ghost from_gives = { λ _ fault. fault ≡ faults.NoMemory };

    fn from(_: AllocError) -> RestartFault {
        RestartFault::NoMemory
    }
}

impl<T: Drop> From<AllocFailed<T>> for RestartFault {
    ghost from_gives = { λ _ fault. fault ≡ faults.NoMemory };

    fn from(_: AllocFailed<T>) -> RestartFault {
        RestartFault::NoMemory
    }
}

impl From<NoMemory> for RestartFault {
    ghost from_gives = { λ _ fault. fault ≡ faults.NoMemory };

    fn from(_: NoMemory) -> RestartFault {
        RestartFault::NoMemory
    }
}

impl From<ImageFault> for RestartFault {
    ghost from_gives = { λ fault_in fault. fault ≡ of_image fault_in };

    fn from(fault: ImageFault) -> RestartFault {
        match fault {
            ImageFault::BadImage { object, part } => RestartFault::BadImage { object, part },
            ImageFault::NoMemory => RestartFault::NoMemory,
        }
    }
}
