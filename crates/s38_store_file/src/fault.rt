ghost use Rattle.std.specs.Prelude.{◌≡◌};
ghost use Rattle.s38_store_file.specs.Refusals.{of_restart, of_store};

use s38_pages::StoreFault;
use s38_restart::RestartFault;
use thiserror::Error;

/// What is wrong with a store.
#[derive(Clone, Copy, PartialEq, Eq, Debug, Error)]
pub enum BadStore {
    /// The disk has too few blocks, so many.
    #[error("STORE TOO SMALL {blocks}")]
    TooSmall { blocks: u32 },
    /// There is no store on the disk.
    #[error("NOT INSTALLED")]
    NotInstalled,
    /// There is a store on the disk.
    #[error("ALREADY INSTALLED")]
    AlreadyInstalled,
    /// The gate is up, and the log is damaged in this block first.
    #[error("LOG DAMAGED {block}")]
    LogDamaged { block: u32 },
    /// Two homes have one key. Of all such pairs this one has the least second home.
    #[error("TWO BLOCKS {first} {second}")]
    TwoBlocks { first: u32, second: u32 },
    /// The first part at fault: 0 the header, else a missing page, 1 the rows, 128 the body.
    #[error("BAD IMAGE {object} {part}")]
    BadImage { object: u64, part: u32 },
}

/// Why a store is not made or not opened.
#[derive(Clone, Copy, PartialEq, Eq, Debug, Error)]
pub enum StoreRefusal {
    /// Something is wrong with it.
    #[error("{0}")]
    Bad(BadStore),
    /// The disk failed.
    #[error("the disk failed")]
    Failed,
    /// Memory was refused.
    #[error("no memory")]
    NoMemory,
}

/// Why a store is refused that is not made or not mounted.
pub fn of_store(fault: StoreFault) -> StoreRefusal
    ensures { result ≡ of_store fault }
{
    match fault {
        StoreFault::TooSmall { blocks } => StoreRefusal::Bad(BadStore::TooSmall { blocks }),
        StoreFault::AlreadyInstalled => StoreRefusal::Bad(BadStore::AlreadyInstalled),
        StoreFault::NotInstalled => StoreRefusal::Bad(BadStore::NotInstalled),
        StoreFault::LogDamaged { block } => StoreRefusal::Bad(BadStore::LogDamaged { block }),
        StoreFault::TwoBlocks { first, second } => {
            StoreRefusal::Bad(BadStore::TwoBlocks { first, second })
        }
        StoreFault::Failed => StoreRefusal::Failed,
        StoreFault::NoMemory => StoreRefusal::NoMemory,
    }
}

/// Why a store is refused that is not restarted.
pub fn of_restart(fault: RestartFault) -> StoreRefusal
    ensures { result ≡ of_restart fault }
{
    match fault {
        RestartFault::BadImage { object, part } => {
            StoreRefusal::Bad(BadStore::BadImage { object, part })
        }
        RestartFault::Failed => StoreRefusal::Failed,
        RestartFault::NoMemory => StoreRefusal::NoMemory,
    }
}
